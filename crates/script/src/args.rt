ghost use Rattle.std.specs.Prelude.{◌≡◌, ◌⊎◌, map, slice_get, slice_index_or};
ghost use Rattle.script.specs.Args.{kind_of, value_of, stretch_of, nothing};

use super::copyvec::CopyVec;
use super::forms::Kind;
use super::stretch::Stretch;

// What a token stands for.
#[derive(Clone, Copy)]
pub(crate) enum Arg {
    // the version that a name stands for
    Version(usize),
    // a name to keep
    Name(Stretch),
    Number(usize),
    // what stands between two quotes
    Quoted(Stretch),
}

// The arguments of a line, at most four.
pub(crate) type Args = CopyVec<Arg, 4>;

// Argument j, which is a version or a number.
pub(crate) fn value(args: &[Arg], j: usize) -> usize
    requires { (slice_get (map kind_of args.now) j ≡ Some Kind.Known) ⊎ (slice_get (map kind_of args.now) j ≡ Some Kind.Number) }
    ensures { result ≡ value_of (slice_index_or args.now j nothing) }
{
    match args[j] {
        Arg::Version(value) | Arg::Number(value) => value,
        _ => unreachable!(),
    }
}

// Argument j, which is a name to keep or a quoted text.
pub(crate) fn stretch(args: &[Arg], j: usize) -> Stretch
    requires { (slice_get (map kind_of args.now) j ≡ Some Kind.Fresh) ⊎ (slice_get (map kind_of args.now) j ≡ Some Kind.Quoted) }
    ensures { result ≡ stretch_of (slice_index_or args.now j nothing) }
{
    match args[j] {
        Arg::Name(stretch) | Arg::Quoted(stretch) => stretch,
        _ => unreachable!(),
    }
}
