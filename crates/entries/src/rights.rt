// Rights as one number, in a call and in an entry (entries 12), and the access bits that give them (entries 10, entries 11).
ghost use Rattle.std.specs.Prelude.{◌≡◌, ◌<◌};
ghost use Rattle.entries.specs.Meaning.{right_of};
ghost use Rattle.entries.specs.Rights.{allows, may_execute, may_read, may_write, rights_of, unlawful_rights};

#[derive(Clone, Copy)]
pub enum Right {
    Read,
    Write,
    Execute,
}

// The weights of the rights in their number.
const READ: u32 = 1;

const WRITE: u32 = 2;

const EXECUTE: u32 = 4;

// Read, write and execute together.
const ALL_RIGHTS: u32 = 7;

// Each right is the bit of its number in the enum.
#[tactic(auto, unfolding(crate::specs::Rights::allows))]
pub fn allows(rights: u32, right: Right) -> bool
    ensures { result ≡ allows rights (right_of right) }
{
    words::bits(rights, right as u32, 1) == 1
}

// Rights that no map takes (map 9).
#[tactic(auto, unfolding(crate::specs::Rights::unlawful_rights))]
pub fn are_unlawful(rights: u32) -> bool
    ensures { result ≡ unlawful_rights rights }
{
    rights > ALL_RIGHTS
        || !allows(rights, Right::Read)
            && (allows(rights, Right::Write) || allows(rights, Right::Execute))
}

// Access bits that give read (entries 10). By equations: `matches!` is compiled to more code.
#[tactic(auto, unfolding(crate::specs::Rights::may_read))]
fn may_read(ap: u32) -> bool
    ensures { result ≡ may_read ap }
{
    ap == 0b010 || ap == 0b110 || ap == 0b111 || ap == 0b011
}

#[tactic(auto, unfolding(crate::specs::Rights::may_write))]
fn may_write(ap: u32) -> bool
    ensures { result ≡ may_write ap }
{
    ap == 0b011
}

// Where execute is given (entries 11).
#[tactic(auto, unfolding(crate::specs::Rights::may_execute))]
fn may_execute(ap: u32, xn: u32) -> bool
    ensures { result ≡ may_execute ap xn }
{
    may_read(ap) && xn == 0
}

// The rights of access bits as one number.
#[tactic(auto, unfolding(crate::specs::Rights::rights_of, words::specs::Bounded::num))]
pub fn rights_of(ap: u32, xn: u32) -> u32
    ensures { result ≡ rights_of ap xn }
{
    READ * u32::from(may_read(ap))
        + WRITE * u32::from(may_write(ap))
        + EXECUTE * u32::from(may_execute(ap, xn))
}
