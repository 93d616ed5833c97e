ghost use Rattle.std.specs.Prelude.{◌≡◌};
ghost use Rattle.scalar.specs.Integers.{magnitude_of};

use sheet::token::{Literal, Token};

// The magnitude of an integer literal that fits 64 bits.
pub fn magnitude_of(token: Token) -> Option<u64>
    ensures { result ≡ magnitude_of token }
{
    match token {
        Token::Literal(Literal::Integer(integer)) => integer.magnitude,
        _ => None,
    }
}
