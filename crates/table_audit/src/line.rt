//! What is written of a rule that is broken.
ghost use Rattle.std.specs.Prelude.{◌≡◌, IfOk, string_bytes};
ghost use Rattle.table_audit.specs.Line.{line_of, reason_under, table_under};

use crate::auditing::{Finding, TableRule};
use itoa::Buffer;
use std::alloc::{AllocError, Global};

/// The table whose row breaks the rule.
fn table_of(rule: TableRule) -> &'static str
    ensures { result.now ≡ table_under rule }
{
    match rule {
        TableRule::Office => "meta",
        TableRule::Team => "teams",
        TableRule::Pacticipant => "pacticipants",
        TableRule::Version => "versions",
        TableRule::Content => "contents",
        TableRule::Result | TableRule::Provider | TableRule::Newest => "results",
        TableRule::Named => "latest",
        TableRule::Deployed => "deployed",
    }
}

/// What is wrong with that row.
fn reason_of(rule: TableRule) -> &'static str
    ensures { result.now ≡ reason_under rule }
{
    match rule {
        TableRule::Office => "not of format 2, or no digest",
        TableRule::Team => "no name, or no digest",
        TableRule::Pacticipant => "no name, or no name of a team",
        TableRule::Version => "a gap in the numbers, or no name",
        TableRule::Content => "a gap in the numbers, or not the text of its digest",
        TableRule::Result => "a gap in the numbers, or no run",
        TableRule::Provider => "its provider isn't the pacticipant of its version",
        TableRule::Named => "it names a result of another content or version",
        TableRule::Newest => "in latest an older result is named, or none",
        TableRule::Deployed => "its version is of another pacticipant, or its instance isn't UTF-8",
    }
}

impl Finding {
    /// The line that says which rule is broken, and by which row: `TABLE, row N: REASON`. The error is out of memory.
    pub fn line(&self, alloc: Global) -> Result<String, AllocError>
        ensures { IfOk result (λ line. string_bytes line ≡ line_of self.now) }
    {
        let Some(row) = self.row else {
            return String::from_str(alloc, "meta: no row");
        };
        let mut line = String::from_str(alloc, table_of(self.rule))?;
        line.push_str(", row ")?;
        line.push_str(Buffer::new().format(row))?;
        line.push_str(": ")?;
        line.push_str(reason_of(self.rule))?;
        Ok(line)
    }
}
