// What analysis the words ask for.
ghost use Rattle.std.specs.Prelude.{◌≡◌};
ghost use Rattle.plai_top.specs.Tasks.{domain_of, form_by, task_of};

use crate::form::Form;
use plai_eval::AnyPlainDomain;
use plai_words::{DomainName, Settings};

/// What analysis the words ask for: the domain, the depth of terms, from 1 to 8, which the domain `depth` alone uses, the
/// most rows, and how the answers are written.
#[derive(Clone, Copy, Debug)]
pub struct Task {
    pub domain: DomainName,
    pub depth: u32,
    pub rows: u64,
    pub form: Form,
}

impl AnyPlainDomain for Task {
    ghost plain = { domain_of };
}

/// How the answers are written, where a program of so many predicates is made, or none.
fn form_by(make: Option<u32>) -> Form
    ensures { result ≡ form_by make }
{
    match make {
        None => Form::Tables,
        Some(_) => Form::Counts,
    }
}

/// The analysis that settings ask for.
pub fn task_of(settings: &Settings) -> Task
    ensures { result ≡ task_of settings.now }
{
    Task {
        domain: settings.domain,
        depth: settings.depth,
        rows: settings.rows,
        form: form_by(settings.make),
    }
}
