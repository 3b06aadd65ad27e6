ghost use Rattle.std.specs.Prelude.{◌≡◌};
ghost use Rattle.spoc_base.specs.Dialects.{keeps_state, places_replies, is_grouped};

/// The configuration language of a device.
#[derive(Clone, Copy, Debug, PartialEq, Eq)]
pub enum Dialect {
    /// Cisco IOS: plain extended access lists, which keep no state.
    Ios,
    /// Cisco ASA: access lists with stateful inspection of TCP and UDP.
    Asa,
}

impl Dialect {
    /// Whether its devices pass a reply to what one of their lists let in, whatever their lists say
    /// of the reply.
    pub fn keeps_state(self) -> bool
        ensures { result ≡ keeps_state self }
    {
        match self {
            Dialect::Ios => false,
            Dialect::Asa => true,
        }
    }

    /// Whether its lists have lines for replies.
    pub fn places_replies(self) -> bool
        ensures { result ≡ places_replies self }
    {
        match self {
            Dialect::Ios => true,
            Dialect::Asa => false,
        }
    }

    /// Whether neighbouring lines of its lists are joined, with object groups at their ends.
    pub fn is_grouped(self) -> bool
        ensures { result ≡ is_grouped self }
    {
        match self {
            Dialect::Ios => false,
            Dialect::Asa => true,
        }
    }
}
