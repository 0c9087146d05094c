//! The laws of streams. The program calls none of these.
ghost use Rattle.broker_http.specs.Laws.{ClosesByRequest, OneReading, StreamsDeployExactly, StreamsReleaseExactly};

use broker_database::Service;

/// The sentence for which this broker exists, of a stream of requests. A broker that [`crate::serve`]s one from
/// a database that holds a state answers by steps of the machine, in order, from that state on (the field `machine`
/// of its promise). Of these each deployment is recorded exactly when every contract between the version and the
/// partners there has a successful latest verification, no required provider is absent and the caller's team is
/// granted, all in the state to which the steps before it lead; otherwise its answer names every failing or missing
/// pair, or the denying rule, and nothing changes. So is each release.
pub fn headline_of_stream()
    ensures deployments { StreamsDeployExactly }
    ensures releases { StreamsReleaseExactly }
{}

/// A stream has one reading, however it is cut into reads and for all answers of a broker: the same messages, a
/// response to each, the same rest and the same end. For whether a response closes its stream follows from its message.
pub fn one_reading<B: Service, C: Service>()
    ensures closes { ClosesByRequest B.shown }
    ensures reading { OneReading B.shown C.shown }
{}
