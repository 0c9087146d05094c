//! The law of requests. The program doesn't call it.
ghost use Rattle.http_requests.specs.Laws.{AsksOne};

/// A message asks one thing: one command with one token, or one refusal.
pub fn one_request()
    ensures { AsksOne }
{}
