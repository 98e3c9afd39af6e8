ghost use Rattle.std.specs.Prelude.{◌≡◌, map, take};
ghost use Rattle.script.specs.Args.{kind_of};
ghost use Rattle.script.specs.Commands.{Holding};
ghost use Rattle.script.specs.Forms.{form};
ghost use Rattle.script.specs.Judgement.{command, judged, judged_text, column_of_first};
ghost use Rattle.script.specs.Names.{listed};
ghost use Rattle.script.specs.Smallest.{Smallest, line_faults};

use super::args::{Arg, stretch, value};
use super::arguments::LineReader;
use super::bounds::SHOW_MOST;
use super::command::Command;
use super::fault::{Fault, ScriptFault};
use super::forms::{Verb, verb_named};
use super::lines::Line;
use super::names::Names;
use super::tokens::token_at;

// The command of a form with its arguments: one table, with an arm for each of the 13 verbs. With slice patterns on the
// arguments, the arm that is never reached would need some 50 lines of proof.
fn command_of(verb: Verb, args: &[Arg]) -> Command
    requires { map kind_of args.now ≡ (form verb).kinds }
    ensures { result ≡ command verb args.now }
{
    match verb {
        Verb::Open => Command::Open {
            version: value(args, 0),
        },
        Verb::Keep => Command::Keep {
            name: stretch(args, 0),
        },
        Verb::Shape => Command::Shape {
            version: value(args, 0),
        },
        Verb::Text => Command::Text {
            place: value(args, 0),
            text: value(args, 1),
            from: value(args, 2),
            len: value(args, 3),
        },
        Verb::Say => Command::Say {
            place: value(args, 0),
            quoted: stretch(args, 1),
        },
        Verb::Put => Command::Put {
            place: value(args, 0),
            version: value(args, 1),
        },
        Verb::Cut => Command::Cut {
            from: value(args, 0),
            len: value(args, 1),
        },
        Verb::Crop => Command::Crop {
            from: value(args, 0),
            len: value(args, 1),
        },
        Verb::Toss => Command::Toss,
        Verb::Show => Command::Show {
            version: value(args, 0),
            from: value(args, 1),
            len: value(args, 2),
        },
        Verb::Lines => Command::Lines {
            version: value(args, 0),
            from: value(args, 1),
            len: value(args, 2),
        },
        Verb::Pairs => Command::Pairs {
            version: value(args, 0),
            from: value(args, 1),
            len: value(args, 2),
        },
        Verb::Find => Command::Find {
            version: value(args, 0),
            from: value(args, 1),
            quoted: stretch(args, 2),
        },
    }
}

impl<'a> LineReader<'a> {
    // The judgement of the line.
    fn judge(&self) -> Result<Option<Command>, Fault>
        ensures { result ≡ judged_text (listed self.now.names.now) self.now.text.now self.now.line }
    {
        let Some(first) = token_at(self.text, self.line.start) else {
            return Ok(None);
        };
        let Some(verb) = verb_named(first.of(self.text)) else {
            return Err(self.line.fault(ScriptFault::NoForm, first.start));
        };
        let args = self.arguments(verb.form().kinds, first.end)?;
        let command = command_of(verb, args.as_slice());
        match command {
            Command::Show { len, .. } if len > SHOW_MOST => Err(
                self.line.fault(ScriptFault::LongShow, first.start),
            ),
            _ => Ok(Some(command)),
        }
    }
}

// The script's bytes up to the line's end.
fn text_of(script: &[u8], line: Line) -> &[u8]
    ensures { result.now ≡ take line.end script.now }
{
    script.get(..line.end).unwrap_or(script)
}

// The judgement of a line: its command, none if it is blank, or its fault.
pub fn judge(script: &[u8], line: Line, names: &Names) -> Result<Option<Command>, Fault>
    ensures answer { result ≡ judged (listed names.now) script.now line }
    ensures smallest { Smallest (line_faults (listed names.now) script.now line) result }
    ensures holds { Holding (listed names.now) script.now result }
{
    let reader = LineReader {
        text: text_of(script, line),
        line,
        names,
    };
    reader.judge()
}

// The column of the line's first token, or none if the line is blank.
pub fn first_column(script: &[u8], line: Line) -> Option<usize>
    ensures { result ≡ column_of_first script.now line }
{
    let first = token_at(text_of(script, line), line.start)?;
    Some(line.column(first.start))
}
