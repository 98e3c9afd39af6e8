ghost use Rattle.std.specs.Prelude.{◌≡◌, ◌+◌, ◌<◌, ◌≤◌, length, if◌then◌else◌, IfOk, nat_lt};
ghost use Rattle.script.specs.Args.{outcome, filled};
ghost use Rattle.script.specs.Arguments.{meant, argument, both, one, arguments};
ghost use Rattle.script.specs.Names.{listed};
ghost use Rattle.script.specs.Stretches.{Inside};
ghost use Rattle.script.specs.Tokens.{tokens_from};

use super::args::{Arg, Args};
use super::fault::{Fault, ScriptFault};
use super::forms::Kind;
use super::lines::Line;
use super::names::Names;
use super::shapes::{is_number, is_quoted, is_word, number_value};
use super::stretch::Stretch;
use super::tokens::token_at;
use shelf::LIMIT;

// What a token stands for where the form wants a kind; `bytes` are the token's.
fn read_token(names: &Names, kind: Kind, token: Stretch, bytes: &[u8]) -> Result<Arg, ScriptFault>
    requires { token.start < token.end }
    ensures { result ≡ meant (listed names.now) kind token bytes.now }
{
    match kind {
        Kind::Known if is_word(bytes) => names
            .version(bytes)
            .map(Arg::Version)
            .ok_or(ScriptFault::UnknownName),
        Kind::Fresh if is_word(bytes) => match names.version(bytes) {
            Some(_) => Err(ScriptFault::TakenName),
            None => Ok(Arg::Name(token)),
        },
        Kind::Number if is_number(bytes) => {
            let number = number_value(bytes);
            if number > LIMIT {
                Err(ScriptFault::AboveLimit)
            } else {
                Ok(Arg::Number(number))
            }
        }
        Kind::Quoted if is_quoted(bytes) => Ok(Arg::Quoted(Stretch {
            start: token.start + 1,
            end: token.end - 1,
        })),
        _ => Err(ScriptFault::NoForm),
    }
}

// The fault of the smaller row, or the left one.
fn sooner(left: Fault, right: Fault) -> Fault
    ensures { result ≡ (if nat_lt right.row.number left.row.number then right else left) }
{
    if right.row.number < left.row.number {
        right
    } else {
        left
    }
}

// One token more, to the right.
fn and(sofar: Result<Args, Fault>, next: Result<Arg, Fault>) -> Result<Args, Fault>
    requires { IfOk next (λ _. filled sofar < 4) }
    ensures { (outcome result ≡ both (outcome sofar) (one next)) × (filled result ≤ filled sofar + 1) }
{
    match (sofar, next) {
        (Ok(mut args), Ok(arg)) => {
            args.extend(&[arg]);
            Ok(args)
        }
        (Err(left), Err(right)) => Err(sooner(left, right)),
        (Ok(_), Err(fault)) | (Err(fault), Ok(_)) => Err(fault),
    }
}

// The bytes up to a line's end, the line, and the names given so far.
#[derive(Drop)]
pub(crate) struct LineReader<'a> {
    pub(crate) text: &'a [u8],
    pub(crate) line: Line,
    pub(crate) names: &'a Names,
}

impl<'a> LineReader<'a> {
    // A token as an argument.
    fn argument(&self, kind: Kind, token: Stretch) -> Result<Arg, Fault>
        requires { Inside token self.now.text.now }
        ensures { result ≡ argument (listed self.now.names.now) self.now.text.now self.now.line kind token }
    {
        // With `map_err` in place of the match, the proof did not close.
        match read_token(self.names, kind, token, token.of(self.text)) {
            Ok(arg) => Ok(arg),
            Err(cause) => Err(self.line.fault(cause, token.start)),
        }
    }

    // The arguments of the line, from the tokens at `from` on.
    pub(crate) fn arguments(&self, kinds: &[Kind], from: usize) -> Result<Args, Fault>
        requires { length kinds.now ≤ 4 }
        ensures { outcome result ≡ arguments (listed self.now.names.now) self.now.text.now self.now.line kinds.now (tokens_from from self.now.text.now) }
    {
        let mut sofar = Ok(Args::new(Arg::Number(0)));
        let mut place = from;
        for kind in kinds {
            let Some(token) = token_at(self.text, place) else {
                let missing = self.line.fault(ScriptFault::NoForm, self.text.len());
                return and(sofar, Err(missing));
            };
            sofar = and(sofar, self.argument(*kind, token));
            place = token.end;
        }
        match token_at(self.text, place) {
            None => sofar,
            Some(token) => and(
                sofar,
                Err(self.line.fault(ScriptFault::NoForm, token.start)),
            ),
        }
    }
}
