//! What the commands say of themselves.

/// The version of the program.
pub(crate) const VERSION: &str = "1.0.0";

pub(crate) const ABOUT: &str =
    "A broker of consumer contracts (pacts): it keeps them with the results of their verification, and
says whether a version may be deployed";

pub(crate) const AFTER: &str =
    "Example: broker init --file broker.db --office-token office-token-0001

Each command ends with a status. 0: done, passed, permitted. 1: failed, not permitted.
2: invalid command line. 3: it couldn't be done; one line on standard error says why.
`broker help COMMAND` explains the lines of a command.";

pub(crate) const REPLAY: &str = "Serves the requests on standard input over tables in memory";

pub(crate) const AFTER_REPLAY: &str =
    "The requests are HTTP/1.1, one after the other. The answers go to standard output; nothing is kept.

Example: broker replay --office-token office-token-0001 < requests.http

Status 0: the input is answered to its end, or up to an answer that closes it.
Status 3, and on standard error one of
  token      the token isn't 16 to 128 ASCII letters, digits and -._~+/=
  open 4, open 5   the tables couldn't be made: no memory, or the database failed
  serve 1    the input couldn't be read
  serve 2    the output couldn't be written
  serve 3    no memory for a request
  memory     no memory for anything else";

pub(crate) const INIT: &str = "Makes the file of a new broker";

pub(crate) const AFTER_INIT: &str =
    "The file is a database of SQLite, with a second file beside it, whose name ends in -wal. Keep the
office's token: only it names teams, and it can't be changed or read from the file.

Example: broker init --file broker.db --office-token office-token-0001

Status 0: the file is there and holds the tables of a new broker.
Status 3, and on standard error one of
  token      the token isn't 16 to 128 ASCII letters, digits and -._~+/=
  file       the file can't be read or written, or is no database
  open 1     the file has a table already; nothing is changed
  open 4     no memory for the tables
  open 5     the database failed
  memory     no memory for anything else";

pub(crate) const MIGRATE: &str = "Upgrades a broker's file from format 1 to format 2";

pub(crate) const AFTER_MIGRATE: &str =
    "Every row stays: each result is a claim of its sender, no environment is strict, and can-i-deploy answers
as before. There is no way back, so copy the file first.

Example: broker migrate --file broker.db

Status 0: the file is of format 2.
Status 3, and on standard error one of
  file       the file isn't there, can't be read or written, is in use, or is no database
  open 2     the file isn't a broker's; nothing is changed
  open 3.N   the file has another format than 1, of number N, as 2 after a migration; nothing is changed
  open 4     no memory for the tables; nothing is changed
  open 5     the database failed: try it again
  memory     no memory for anything else";

pub(crate) const AUDIT: &str =
    "Says whether the tables of a broker's file hold a state of the broker";

pub(crate) const AFTER_AUDIT: &str =
    "Reads every row, and changes nothing. If the tables don't hold a state of the broker, prints one
line: which table, which row, and which rule is broken.

Example: broker audit --file broker.db

Status 0: the tables hold a state of the broker. Status 1: they don't.
Status 3, and on standard error one of
  file       the file isn't there, can't be read or written, is in use, or is no database
  open 2     the file isn't a broker's
  open 3.N   the file has another format, of number N; `broker migrate` takes one of format 1
  open 4     no memory to open the tables
  open 5     the database failed
  memory     no memory for anything else";

pub(crate) const SERVE: &str =
    "Serves HTTP/1.1 on an address of this computer, over the broker in a file";

pub(crate) const AFTER_SERVE: &str =
    "The connections are served one after the other, and the program ends after the last one. A request
that has begun must be whole within 10 seconds, or 2 if another connection waits, and its answer be
taken within 2 seconds, else the connection ends. An idle one is closed once another one waits.
The address is one of loopback with a port, as 127.0.0.1:9292 or [::1]:9292: put a server with TLS
before it. While it runs no other program can open the file.

Example: broker serve --file broker.db --listen 127.0.0.1:9292 --connections 1000000

Status 0: the connections are served. A peer that fails ends only its own connection.
Status 3, and on standard error one of
  file       the file isn't there, can't be read or written, is in use, or is no database
  open 2     the file isn't a broker's
  open 3.N   the file has another format, of number N; `broker migrate` takes one of format 1
  open 4     no memory to open the tables
  open 5     the database failed
  listen     the address isn't one of loopback, or is taken
  memory     no memory for anything else";

pub(crate) const NORMALISE: &str = "Writes the normal text of the pact file on standard input";

pub(crate) const AFTER_NORMALISE: &str =
    "Two pact files are one contract if their normal texts are equal.

Example: broker normalise < pacts/shop-stock.json

Status 0: standard output has the normal text and a newline.
Status 3, and on standard error one of
  pact N     the file's first fault: 1 too long, 2 not JSON, 3 another shape at the place that follows,
             4 not of version 3, 5 messages, 6.1 a fraction, 6.2 nested too deep, 7.N a matching rule,
             8 two interactions that clash, 9 over 512 interactions, 10 one name on both sides
  file       the input can't be read, or the output can't be written
  memory     no memory was left";

pub(crate) const CHECK: &str = "Says whether recorded replies of a provider meet a pact file";

pub(crate) const AFTER_CHECK: &str =
    "Prints `pass`, or `fail` and the places of the interactions that fail, counted from 0 in the order
of the normal text.

Example: broker check --pact pacts/shop-stock.json --replies replies.json

Status 0: pass. Status 1: fail.
Status 3, and on standard error one of
  pact N     the pact file's first fault, as `normalise --help` lists them
  replies N  the first fault of the replies: 1 not JSON, 2 another shape at the place that follows,
             3.1 a fraction, 3.2 nested too deep, 4 two replies for one interaction
  check 1    a reply belongs to no interaction
  check 2    a pattern of the pact can't be used, or the searches would take too many steps
  file       a file can't be read, or the output can't be written
  memory     no memory was left";

pub(crate) const CAN_I_DEPLOY: &str = "Says whether a version may be deployed to an environment";

pub(crate) const AFTER_CAN_I_DEPLOY: &str =
    "Prints the answer of the request GET /can-i-deploy. While `serve` runs over the file, ask it by HTTP.

Example: broker can-i-deploy --file broker.db --token red-team-token-01 --pacticipant shop
  --version 1.4.2 --to-environment live

Status 0: permitted. Status 1: not permitted; the answer names each pair that is missing or failed.
Status 3, and on standard error the broker's other answer, or one of
  token      the token isn't 16 to 128 ASCII letters, digits and -._~+/=
  name       a name isn't 1 to 100 bytes without control characters
  file       the file isn't there, can't be read or written, is in use, or is no database
  open 2     the file isn't a broker's
  open 3.N   the file has another format, of number N; `broker migrate` takes one of format 1
  open 4     no memory to open the tables
  open 5     the database failed
  memory     no memory for anything else";
