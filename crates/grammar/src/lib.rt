// The form of a job's text, as a grammar (document 01, "The text"), and the reader held to it. `text` says how a text is read;
// here is what a text of a job is, apart from that, and that the reader takes exactly those.

#![tactic(auto)]

ghost use Rattle.grammar.specs.Form.{ReadsForm};

use sketch::{Build, Ending};

pub fn read(s: &[u8]) -> Result<Build, Ending>
    ensures { ReadsForm s.now result }
{
    text::read(s)
}
