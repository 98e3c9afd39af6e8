#![tactic(auto)]

// Summary rules: values of byte strings that can be joined.
ghost use Rattle.std.specs.Prelude.{◌≡◌, ℕ, ◌≤◌, List, [], ◌∷◌, length};
ghost use Rattle.shelf.specs.Texts.{limit};
ghost use Rattle.rule.specs.Rule.{Joins, joined_bytes};

pub mod brackets;
pub mod lines;
#[cfg(test)]
mod tests;

// A summary rule gives every byte string of at most LIMIT bytes a value, and can join the values of neighbouring strings.
// The rule is a type: no value of that type is ever held, and the calls take none.
pub trait Rule {
    // What the rule says of a string is its value, as a node of an augmented tree has an augmented value.
    type Value: Copy;

    // The meaning: the value of each string.
    ghost value: { List ℕ → Self.Value };

    // What `join` answers on any two values, also where they are the values of no string or of too long ones.
    ghost joined: { Self.Value → Self.Value → Self.Value };

    fn empty() -> Self::Value
        ensures { result ≡ value [] };

    fn byte(b: u8) -> Self::Value
        ensures { result ≡ value (b ∷ []) };

    fn join(a: Self::Value, b: Self::Value) -> Self::Value
        ensures { result ≡ joined a b };

    // The law that every rule owes.
    ghost joins: { Joins value joined };
}

// The value of a slice, by joining the values of its bytes from left to right.
// Within the limit that is the meaning of the slice, and beyond it still those values joined.
pub fn value_of<R: Rule>(bytes: &[u8]) -> R::Value
    ensures folds { result ≡ joined_bytes R.value R.joined bytes.now }
    ensures means { length bytes.now ≤ limit → result ≡ R.value bytes.now }
{
    let mut value = R::empty();
    for b in bytes {
        value = R::join(value, R::byte(*b));
    }
    value
}
