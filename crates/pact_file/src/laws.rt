//! Laws of the definitions. The program calls none of these.

ghost use Rattle.pact_file.specs.Laws.{NormalAgain, OnePact, OneAnswer};

/// The normal text of a pact reads to the same pact, unless a pattern is refused; two pacts have one normal text only
/// if they are equal; and a file has one answer, unless a pattern is refused.
pub fn normal_again()
    ensures again { NormalAgain }
    ensures one { OnePact }
    ensures alone { OneAnswer }
{}
