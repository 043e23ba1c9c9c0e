ghost use Rattle.std.specs.Prelude.{◌≡◌};
ghost use Rattle.typing.specs.Typing.{typing_number};

use tables::place::Rule;

/// The typing rules.
#[derive(Clone, Copy, PartialEq, Eq, Debug)]
pub enum TypingRule {
    /// A function's body has the type of its result.
    Function,
    /// A placed statement keeps the rule of its kind.
    Statement,
}

impl Rule for TypingRule {
    ghost number = { typing_number };

    fn number(self) -> u8 {
        match self {
            TypingRule::Function => 7,
            TypingRule::Statement => 8,
        }
    }
}
