//! The texts of a scenario, and how far it is.
use crate::scenarios::{Answer, Question, Scenario};
use crate::streams::{Outcome, Run, run_of, served_at_once};
use broker_service::Broker;
use sqlite::Alter;
use std::alloc::Global;
use std::test::Fail;

fn answer_text(alloc: Global, answer: &Answer) -> Result<String, Fail> {
    let (status, body) = *answer;
    let length = body.len();
    Ok(format!(in alloc;
        "HTTP/1.1 {status}\r\ncontent-type: application/json\r\ncontent-length: {length}\r\n\r\n{body}"
    )?)
}

/// The texts of a scenario.
#[derive(Drop)]
pub(crate) struct Script {
    requests: Run,
    /// The answer to each request, and to one that was done before.
    answers: Vec<String>,
    again: Vec<String>,
    questions: String,
    /// The answers to the questions, by how many requests are done.
    shown: Vec<String>,
}

/// The answer to a question after so many requests.
fn shown_after(answers: &[(usize, Answer)], done: usize) -> Answer {
    let mut shown = ("", "");
    for (from, answer) in answers {
        if *from <= done {
            shown = *answer;
        }
    }
    shown
}

fn all_shown(alloc: Global, questions: &[Question], done: usize) -> Result<String, Fail> {
    let mut text = String::new(alloc);
    for (_, answers) in questions {
        text.push_str(&answer_text(alloc, &shown_after(answers, done))?)?;
    }
    Ok(text)
}

fn asked(alloc: Global, questions: &[Question]) -> Result<String, Fail> {
    let mut requests = Vec::new(alloc);
    for (request, _) in questions {
        requests.push(*request)?;
    }
    let Run { text, .. } = run_of(alloc, &requests)?;
    Ok(text)
}

/// What is answered to a stream.
fn answered<S: Alter>(alloc: Global, broker: &mut Broker<S>, stream: &[u8]) -> Vec<u8> {
    let Outcome { written, .. } = served_at_once(alloc, broker, stream);
    written
}

impl Script {
    pub(crate) fn new(alloc: Global, scenario: &Scenario) -> Result<Script, Fail> {
        let mut requests = Vec::new(alloc);
        for (request, _, _) in scenario.steps {
            requests.push(*request)?;
        }
        let mut script = Script {
            requests: run_of(alloc, &requests)?,
            answers: Vec::new(alloc),
            again: Vec::new(alloc),
            questions: asked(alloc, scenario.questions)?,
            shown: Vec::new(alloc),
        };
        for (_, answer, again) in scenario.steps {
            script.answers.push(answer_text(alloc, answer)?)?;
            script.again.push(answer_text(alloc, again)?)?;
        }
        for done in 0..=scenario.steps.len() {
            script
                .shown
                .push(all_shown(alloc, scenario.questions, done)?)?;
        }
        Ok(script)
    }

    pub(crate) fn len(&self) -> usize {
        self.answers.len()
    }

    /// The requests that come after so many.
    fn rest(&self, done: usize) -> &[u8] {
        let begin = match done.checked_sub(1) {
            Some(last) => self.requests.ends.get(last).copied().unwrap_or(0),
            None => 0,
        };
        let bytes = self.requests.text.as_bytes();
        if begin <= bytes.len() {
            &bytes[begin..]
        } else {
            &[]
        }
    }

    /// Whether these are the answers to the questions after so many requests.
    fn is_shown(&self, returned: &[u8], done: usize) -> bool {
        match self.shown.get(done) {
            Some(text) => text.as_bytes() == returned,
            None => false,
        }
    }

    /// Asks the questions, and says whether the answers are right.
    fn ask<S: Alter>(&self, alloc: Global, broker: &mut Broker<S>, course: &mut Course) -> bool {
        let returned = answered(alloc, broker, self.questions.as_bytes());
        course.settle(self, &returned)
    }

    /// Sends the requests that aren't done, and says whether the answers are right.
    fn send<S: Alter>(&self, alloc: Global, broker: &mut Broker<S>, course: &mut Course) -> bool {
        let returned = answered(alloc, broker, self.rest(course.done));
        course.advance(self, &returned)
    }

    /// Goes on with a broker: the questions, the requests that aren't done, and if all are, the questions again. Says
    /// whether the answers are right.
    pub(crate) fn play<S: Alter>(
        &self,
        alloc: Global,
        broker: &mut Broker<S>,
        course: &mut Course,
    ) -> bool {
        self.ask(alloc, broker, course)
            && self.send(alloc, broker, course)
            && (course.done < self.len() || self.ask(alloc, broker, course))
    }

    /// Whether a request changes something.
    pub(crate) fn changes(&self, place: usize) -> bool {
        self.answers.get(place) != self.again.get(place)
            || self.shown.get(place) != self.shown.get(place.saturating_add(1))
    }

    /// The bytes after the answer to a request.
    fn after_answer<'a>(
        &self,
        place: usize,
        may_be_done: bool,
        returned: &'a [u8],
    ) -> Option<&'a [u8]> {
        let answer = self.answers.get(place)?;
        if let Some(rest) = returned.strip_prefix(answer.as_bytes()) {
            return Some(rest);
        }
        let again = self.again.get(place)?;
        if may_be_done {
            returned.strip_prefix(again.as_bytes())
        } else {
            None
        }
    }
}

const STORE: &str =
    "HTTP/1.1 500 Internal Server Error\r\ncontent-type: application/json\r\ncontent-length: 18\r\n\r\n{\"answer\":\"store\"}";

const STOPPED: &str =
    "HTTP/1.1 503 Service Unavailable\r\ncontent-type: application/json\r\ncontent-length: 20\r\n\r\n{\"answer\":\"stopped\"}";

/// Whether these are the answers to so many requests, of which a stop cut the first.
fn are_refusals(returned: &[u8], count: usize) -> bool {
    let mut rest = returned;
    for place in 0..count {
        let refusal = if place == 0 { STORE } else { STOPPED };
        match rest.strip_prefix(refusal.as_bytes()) {
            Some(after) => rest = after,
            None => return false,
        }
    }
    rest.is_empty()
}

/// How far a scenario is: so many requests are done, and maybe one more, which was cut before it was answered.
#[derive(Clone, Copy)]
pub(crate) struct Course {
    pub(crate) done: usize,
    pub(crate) maybe_next: bool,
}

/// Nothing is done.
pub(crate) const BEGIN: Course = Course {
    done: 0,
    maybe_next: false,
};

impl Course {
    /// Takes the answers to the questions, which show whether the cut request was done; says whether they are right.
    fn settle(&mut self, script: &Script, returned: &[u8]) -> bool {
        let next = self.done.saturating_add(1);
        let is_here = script.is_shown(returned, self.done);
        let is_next = self.maybe_next && script.is_shown(returned, next);
        if is_next && !is_here {
            self.done = next;
        }
        self.maybe_next = is_next && is_here;
        is_here || is_next
    }

    /// Goes on by what is answered to the requests that aren't done, and says whether it is right: the first ones are
    /// answered, and one is cut.
    fn advance(&mut self, script: &Script, returned: &[u8]) -> bool {
        let mut rest = returned;
        for place in self.done..script.len() {
            match script.after_answer(place, self.maybe_next, rest) {
                Some(after) => rest = after,
                None => break,
            }
            self.done = place.saturating_add(1);
            self.maybe_next = false;
        }
        are_refusals(rest, script.len().saturating_sub(self.done))
    }
}
