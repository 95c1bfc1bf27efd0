// The name rule for files: which bytes may be a file's name.
//
// Not here: whether such a file exists or may be opened; that is the console's.
#![tactic(auto)]

mod utf8;

ghost use Rattle.std.specs.Prelude.{◌≡◌, ◌+◌, ◌-◌};
ghost use Rattle.octets.specs.Claims.{Divides};
ghost use Rattle.pathname.specs.Claims.{CutsCharactersNowhere};
ghost use Rattle.pathname.specs.Name.{valid_name, valid_components, valid_component, rooted};

// "1 to 4,096 bytes"
pub const NAME_LIMIT: usize = 4096;

// "each component .. at most 255 bytes"
pub const COMPONENT_LIMIT: usize = 255;

// Whether the bytes are a good name.
#[tactic(auto, unfolding(crate::specs::Name::valid_name))]
pub fn is_valid(name: &[u8]) -> bool
    ensures { result ≡ valid_name name.now }
{
    name.len() >= 1
        && name.len() <= NAME_LIMIT
        && utf8::is_valid(name)
        && octets::find(name, 0, 0) == name.len()
        && is_rooted(name)
        && has_valid_components(name)
}

// Whether the name begins with `/` or `~/`.
#[tactic(auto, unfolding(crate::specs::Name::rooted))]
fn is_rooted(name: &[u8]) -> bool
    ensures { result ≡ rooted name.now }
{
    octets::starts_with(name, b"/") || octets::starts_with(name, b"~/")
}

// Whether each component is good. That the components are what stands between slashes stands here, and
// that a slash cuts no character.
fn has_valid_components(name: &[u8]) -> bool
    ensures value { result ≡ valid_components name.now }
    ensures divides { Divides }
    ensures cuts_characters_nowhere { CutsCharactersNowhere }
{
    name.split(|b| *b == b'/').all(is_valid_component)
}

#[tactic(auto, unfolding(crate::specs::Name::valid_component))]
fn is_valid_component(component: &[u8]) -> bool
    ensures { result ≡ valid_component component.now }
{
    component.len() <= COMPONENT_LIMIT && !octets::equal(component, b"..")
}
