ghost use Rattle.std.specs.Prelude.{◌≡◌};
ghost use Rattle.script.specs.Forms.{form, verbs, verb_of};

// The word that a line begins with.
#[derive(Clone, Copy)]
pub(crate) enum Verb {
    Open,
    Keep,
    Shape,
    Text,
    Say,
    Put,
    Cut,
    Crop,
    Toss,
    Show,
    Lines,
    Pairs,
    Find,
}

// What a token behind the first has to be.
#[derive(Clone, Copy)]
pub(crate) enum Kind {
    // a name that stands for a version
    Known,
    // a name to keep, which stands for none
    Fresh,
    Number,
    Quoted,
}

// The form of a line: its first word, and the kinds of the tokens behind it.
#[derive(Drop)]
pub(crate) struct Form {
    pub(crate) word: &'static [u8],
    pub(crate) kinds: &'static [Kind],
}

impl Form {
    fn new(word: &'static [u8], kinds: &'static [Kind]) -> Form
        ensures { (result.word.now ≡ word.now) × (result.kinds.now ≡ kinds.now) }
    {
        Form { word, kinds }
    }
}

// All verbs: the cases of an enum cannot be listed otherwise.
const VERBS: [Verb; 13] = [
    Verb::Open,
    Verb::Keep,
    Verb::Shape,
    Verb::Text,
    Verb::Say,
    Verb::Put,
    Verb::Cut,
    Verb::Crop,
    Verb::Toss,
    Verb::Show,
    Verb::Lines,
    Verb::Pairs,
    Verb::Find,
];

impl Verb {
    pub(crate) fn form(self) -> Form
        ensures { (result.word.now ≡ (form self).word) × (result.kinds.now ≡ (form self).kinds) }
    {
        match self {
            Verb::Open => Form::new(b"open", &[Kind::Known]),
            Verb::Keep => Form::new(b"keep", &[Kind::Fresh]),
            Verb::Shape => Form::new(b"shape", &[Kind::Known]),
            Verb::Text => Form::new(
                b"text",
                &[Kind::Number, Kind::Number, Kind::Number, Kind::Number],
            ),
            Verb::Say => Form::new(b"say", &[Kind::Number, Kind::Quoted]),
            Verb::Put => Form::new(b"put", &[Kind::Number, Kind::Known]),
            Verb::Cut => Form::new(b"cut", &[Kind::Number, Kind::Number]),
            Verb::Crop => Form::new(b"crop", &[Kind::Number, Kind::Number]),
            Verb::Toss => Form::new(b"toss", &[]),
            Verb::Show => Form::new(b"show", &[Kind::Known, Kind::Number, Kind::Number]),
            Verb::Lines => Form::new(b"lines", &[Kind::Known, Kind::Number, Kind::Number]),
            Verb::Pairs => Form::new(b"pairs", &[Kind::Known, Kind::Number, Kind::Number]),
            Verb::Find => Form::new(b"find", &[Kind::Known, Kind::Number, Kind::Quoted]),
        }
    }
}

// The verb that a word is.
pub(crate) fn verb_named(word: &[u8]) -> Option<Verb>
    ensures { result ≡ verb_of verbs word.now }
{
    VERBS.iter().copied().find(|verb| word == verb.form().word)
}
