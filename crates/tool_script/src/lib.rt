// The arguments of a call script (docs/DRIVER.md), read from a slice at a position, which may be any number. A reader answers none
// where the argument's bytes are not there, and a value of none where they stand for no value of its type. A cell that the type can
// hold though no call takes it, as an unused byte that is not zero, is handed on: the call's door answers it.
// Slice and position are two arguments, as in `codec_cursor`, whose readers are called here.
#![tactic(auto)]

ghost use Rattle.std.specs.Prelude.{◌≡◌};

pub mod cells;
pub mod delivery;
pub mod kind;
pub mod list;

// What was read, and the position behind it.
#[derive(Clone, Copy)]
pub struct Read<T> {
    pub value: T,
    pub at: usize,
}

// `IsAlwaysCallable`, here and in `kind`, is std's form for a function that is lent.
impl<T> Read<T> {
    // What `of` makes of what was read.
    pub fn map<U, F: FnOnce(T) -> U>(self, of: F) -> Read<U>
        requires { F.IsAlwaysCallable of }
        ensures value { F.post of self.value result.value }
        ensures at { result.at ≡ self.at }
    {
        let Read { value, at } = self;
        Read {
            value: of(value),
            at,
        }
    }
}
