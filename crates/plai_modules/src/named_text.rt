use plai_base::Text;
use plai_terms::Listed;

/// A file: its name, and its bytes, of which `load` takes fewer than 2^31.
#[derive(Debug, Drop)]
pub struct NamedText {
    pub name: Text,
    pub text: Listed<u8>,
}
