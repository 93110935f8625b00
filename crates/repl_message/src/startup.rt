ghost use Rattle.std.specs.Prelude.{◌≡◌, ◌↔◌, IsSome, IfSome, MatchOption};

use repl_text::Text;
use std::marker::Model;

/// The code of protocol version 3.0.
pub const PROTOCOL_3_0: u32 = 196_608;

const _: () = prove!(PROTOCOL_3_0 == 196_608);

/// The code that asks to cancel.
pub const CANCEL_REQUEST: u32 = 80_877_102;

const _: () = prove!(CANCEL_REQUEST == 80_877_102);

/// The code that asks for TLS.
pub const SSL_REQUEST: u32 = 80_877_103;

const _: () = prove!(SSL_REQUEST == 80_877_103);

/// The code that asks for GSS encryption.
pub const GSS_REQUEST: u32 = 80_877_104;

const _: () = prove!(GSS_REQUEST == 80_877_104);

/// A parameter of a startup packet: a name, which is not empty, and its value.
#[derive(Debug, Drop)]
pub struct Pair {
    pub name: Text,
    pub value: Text,
}

/// The parameters of a startup packet, in order. None of the names is empty.
#[derive(Debug, Drop)]
pub struct Pairs {
    pairs: Vec<Pair>,
}

impl Model for Pairs {
    ghost use Rattle.std.specs.Prelude.{List};
    ghost use Rattle.repl_message.specs.declared.startup.Pair.{Pair};

    ghost Value = { List Pair };

    ghost use Rattle.repl_message.specs.Lists.{AreNamed};

    ghost view = { λ p. p.pairs.items };

    ghost invariant = { λ p. AreNamed p.pairs.items };
}

impl Pairs {
    ghost use Rattle.repl_message.specs.Lists.{AreNamed, HasNoPair, IsLast};

    /// These parameters, or `None` exactly where a name is empty.
    pub fn new(pairs: Vec<Pair>) -> Option<Pairs>
        ensures made { IfSome result (λ made. made ≡ pairs.items) }
        ensures taken { IsSome result ↔ AreNamed pairs.items }
    {
        if pairs.iter().all(|pair| !pair.name.is_empty()) {
            Some(Pairs { pairs })
        } else {
            None
        }
    }

    /// The value of the last parameter of this name, which is the one that counts, or `None` exactly where none is
    /// named so.
    pub fn value_of(&self, name: &[u8]) -> Option<&Text>
        ensures { MatchOption result (HasNoPair name.now self.now) (λ value. IsLast name.now self.now value.now) }
    {
        match self
            .pairs
            .iter()
            .rev()
            .find(|pair| pair.name.as_slice() == name)
        {
            Some(pair) => Some(&pair.value),
            None => None,
        }
    }

    /// The parameters.
    pub fn as_slice(&self) -> &[Pair]
        ensures value { result.now ≡ self.now }
        ensures named { AreNamed self.now }
    {
        &self.pairs
    }
}

/// What a client sends first on a connection (manual, "Message Formats": StartupMessage, SSLRequest,
/// GSSENCRequest, CancelRequest).
#[derive(Debug, Drop)]
pub enum Startup {
    /// Parameters for protocol version 3.0.
    Params(Pairs),
    /// Asks for TLS.
    Ssl,
    /// Asks for GSS encryption.
    Gss,
    /// Asks to cancel what the session with this number and key does.
    Cancel { pid: u32, key: u32 },
}
