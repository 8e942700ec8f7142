// The eight names of a session, and the trial layouts that are kept under them. Every function is total: it answers for any value.
#![tactic(auto)]

ghost use Rattle.std.specs.Prelude.{◌≡◌, leb, get_or, set, None, Some};
ghost use Rattle.session_rules.specs.Session.{last_name};

use net::Place;

// How many names there are, and the last of them.
pub const NAMES: usize = 8;

pub const LAST_NAME: u8 = 7;

// A trial layout, what is kept under a name: nets, of which there may be none, or nothing.
pub type Layout = Option<[Place; 64]>;

// Is the number that of a name, 0 to 7?
pub fn is_name(number: u8) -> bool
    ensures { result ≡ leb number last_name }
{
    number <= LAST_NAME
}

// What the name of this number holds; nothing kept above 7.
pub fn layout_of(names: [Layout; NAMES], number: u8) -> Layout
    ensures { result ≡ get_or names number None }
{
    *names.get(usize::from(number))?
}

// The names with these nets kept under one of them, over what it held; the same names for a number above 7.
pub fn stored(names: [Layout; NAMES], number: u8, nets: [Place; 64]) -> [Layout; NAMES]
    ensures { result ≡ set names number (Some nets) }
{
    let mut next = names;
    if number <= LAST_NAME {
        next[usize::from(number)] = Some(nets);
    }
    next
}
