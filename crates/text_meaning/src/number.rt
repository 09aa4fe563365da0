// The number of what is expected.
ghost use Rattle.std.specs.Prelude.{◌≡◌};
ghost use Rattle.text_meaning.specs.Numbers.{expected_number};

use crate::Expected;

impl Expected {
    /// The number that C and the documents have for it, from 1 on.
    pub fn number(self) -> usize
        ensures { result ≡ expected_number self }
    {
        self as usize
    }
}
