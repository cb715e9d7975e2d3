// The names of the domains.
ghost use Rattle.std.specs.Prelude.{◌≡◌};
ghost use Rattle.plai_words.specs.Given.{domain_named};

use crate::types::DomainName;

/// The domain of this name.
#[tactic(auto, unfolding(crate::specs::Given::domain_named))]
pub fn domain_named(text: &[u8]) -> Option<DomainName>
    ensures { result ≡ domain_named text.now }
{
    if text == b"ground".as_slice() {
        Some(DomainName::Ground)
    } else if text == b"share".as_slice() {
        Some(DomainName::Share)
    } else if text == b"depth".as_slice() {
        Some(DomainName::Depth)
    } else {
        None
    }
}
