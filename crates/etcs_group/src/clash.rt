//! Why a telegram doesn't belong to a group.

ghost use Rattle.std.specs.Prelude.{◌↔◌, ◌≡◌, Some, IsTrue, IfSome, IfNone};
ghost use Rattle.etcs_group.specs.Groups.{CountersAgree, Joins};
ghost use Rattle.etcs_group.specs.Clashes.{Alone, Between, Clashes, IsFirstClash};

use etcs_telegram::Telegram;
use etcs_telegram::laws::exact_equality;
use std::error::Error;
use std::fmt;

/// Why a telegram isn't accepted beside those that are held (SUBSET-026, 3.16.2.4; the variables: 7.5). Clashes are
/// looked for in this order. M_VERSION, Q_LINK and the size are compared only with a telegram at the same position.
#[derive(Clone, Copy, Debug, PartialEq, Eq)]
pub enum Clash {
    /// N_PIG is above N_TOTAL.
    BadPosition,
    /// The first position has M_DUP 2, or the last, N_TOTAL, has M_DUP 1.
    BadDuplicate,
    /// NID_C or NID_BG isn't that of a held telegram.
    OtherGroup,
    /// N_TOTAL isn't that of a held telegram.
    OtherTotal,
    /// M_MCOUNT doesn't agree with that of a held telegram: 254 agrees with none, itself included, 255 with every other.
    Counter,
    /// Another telegram is held at the position.
    Differs,
}

/// All of them in the order in which they are looked for.
const ORDER: [Clash; 6] = [
    Clash::BadPosition,
    Clash::BadDuplicate,
    Clash::OtherGroup,
    Clash::OtherTotal,
    Clash::Counter,
    Clash::Differs,
];

impl fmt::Display for Clash {
    ghost use Rattle.etcs_group.specs.Texts.{clash_text};

    ghost output = { λ clash. Some (clash_text clash) };

    fn fmt<W: fmt::Write>(&self, f: &mut fmt::Formatter<W>) -> fmt::Result {
        f.write_str(match self {
            Clash::BadPosition => "the position is after the group's last",
            Clash::BadDuplicate => "the position has no such neighbour to be a duplicate of",
            Clash::OtherGroup => "the telegram is of another group",
            Clash::OtherTotal => "the telegram counts other balises in the group",
            Clash::Counter => "the message counters don't agree",
            Clash::Differs => "another telegram is held at this position",
        })
    }
}

impl Error for Clash {}

impl Clash {
    /// Whether the telegram has this clash whatever else is held.
    fn alone(self, telegram: &Telegram) -> bool
        ensures { IsTrue result ↔ Alone self telegram.now.header }
    {
        let header = telegram.header();
        match self {
            Clash::BadPosition => header.n_total() < header.n_pig(),
            Clash::BadDuplicate => {
                (header.n_pig() == 0 && header.m_dup() == 2)
                    || (header.n_pig() == header.n_total() && header.m_dup() == 1)
            }
            _ => false,
        }
    }

    /// Whether it has this clash with another telegram.
    fn between(self, telegram: &Telegram, other: &Telegram) -> bool
        ensures { IsTrue result ↔ Between self telegram.now other.now }
    {
        let one = telegram.header();
        let two = other.header();
        match self {
            Clash::OtherGroup => one.nid_c() != two.nid_c() || one.nid_bg() != two.nid_bg(),
            Clash::OtherTotal => one.n_total() != two.n_total(),
            Clash::Counter => !agree(one.m_mcount(), two.m_mcount()),
            Clash::Differs => one.n_pig() == two.n_pig() && !exact_equality(telegram, other),
            _ => false,
        }
    }

    /// Whether it has this clash with what is held.
    fn is_met(self, held: &[Option<Telegram>], telegram: &Telegram) -> bool
        ensures { IsTrue result ↔ Clashes held.now telegram.now self }
    {
        if self.alone(telegram) {
            return true;
        }
        for slot in held {
            if let Some(other) = slot {
                if self.between(telegram, other) {
                    return true;
                }
            }
        }
        false
    }
}

/// The first clash that the telegram has with what is held.
pub(crate) fn first_clash(held: &[Option<Telegram>], telegram: &Telegram) -> Option<Clash>
    ensures clash { IfSome result (λ c. IsFirstClash c held.now telegram.now) }
    ensures joins { IfNone result (Joins held.now telegram.now) }
{
    for clash in ORDER {
        if clash.is_met(held, telegram) {
            return Some(clash);
        }
    }
    None
}

/// Whether two values of M_MCOUNT agree.
fn agree(one: u8, two: u8) -> bool
    ensures { IsTrue result ↔ CountersAgree one two }
{
    one != 254 && two != 254 && (one == two || one == 255 || two == 255)
}
