//! Tables of operators.
ghost use Rattle.std.specs.Prelude.{◌≡◌, IfOk, OnOk, OnErr, MatchOption, IsOkUnless};
ghost use Rattle.plai_reader.specs.Operators.{no_operators, look_up, with_operator, refusal, standard, clashes, is_reserved, of_class, with_name, with_entries};

use crate::by_name::ByName;
use crate::fail::OpFail;
use crate::operator::{Class, Definition, OpKind};
use plai_terms::Name;
use std::alloc::{AllocError, Global};

/// The operators that each text begins with.
const STANDARD: [(u32, OpKind, &str); 46] = [
    (1200, OpKind::Xfx, ":-"),
    (1200, OpKind::Xfx, "-->"),
    (1200, OpKind::Fx, ":-"),
    (1200, OpKind::Fx, "?-"),
    (1150, OpKind::Fx, "entry"),
    (1150, OpKind::Fx, "check"),
    (1150, OpKind::Fx, "trust"),
    (1140, OpKind::Fx, "calls"),
    (1140, OpKind::Fx, "success"),
    (1100, OpKind::Xfy, ";"),
    (1050, OpKind::Xfy, "->"),
    (1000, OpKind::Xfy, ","),
    (980, OpKind::Xfx, ":"),
    (975, OpKind::Xfx, "=>"),
    (900, OpKind::Fy, "\\+"),
    (700, OpKind::Xfx, "="),
    (700, OpKind::Xfx, "\\="),
    (700, OpKind::Xfx, "=="),
    (700, OpKind::Xfx, "\\=="),
    (700, OpKind::Xfx, "@<"),
    (700, OpKind::Xfx, "@=<"),
    (700, OpKind::Xfx, "@>"),
    (700, OpKind::Xfx, "@>="),
    (700, OpKind::Xfx, "=.."),
    (700, OpKind::Xfx, "is"),
    (700, OpKind::Xfx, "=:="),
    (700, OpKind::Xfx, "=\\="),
    (700, OpKind::Xfx, "<"),
    (700, OpKind::Xfx, "=<"),
    (700, OpKind::Xfx, ">"),
    (700, OpKind::Xfx, ">="),
    (500, OpKind::Yfx, "+"),
    (500, OpKind::Yfx, "-"),
    (500, OpKind::Yfx, "/\\"),
    (500, OpKind::Yfx, "\\/"),
    (400, OpKind::Yfx, "*"),
    (400, OpKind::Yfx, "/"),
    (400, OpKind::Yfx, "//"),
    (400, OpKind::Yfx, "rem"),
    (400, OpKind::Yfx, "mod"),
    (400, OpKind::Yfx, "<<"),
    (400, OpKind::Yfx, ">>"),
    (200, OpKind::Xfx, "**"),
    (200, OpKind::Xfy, "^"),
    (200, OpKind::Fy, "-"),
    (200, OpKind::Fy, "\\"),
];

/// The operators by which a text is read.
#[derive(Debug, Drop)]
pub struct OpTable {
    prefixes: ByName<Definition>,
    infixes: ByName<Definition>,
    postfixes: ByName<Definition>,
}

fn is_reserved(name: &Name) -> bool
    ensures { result ≡ is_reserved name.now }
{
    let bytes = name.as_slice();
    bytes == b",".as_slice() || bytes == b"|".as_slice() || bytes == b"[]".as_slice()
}

/// Gives the name this operator in the place of what it had, or takes that away where the priority is 0.
fn define(
    alloc: Global,
    names: &mut ByName<Definition>,
    priority: u32,
    kind: OpKind,
    name: &Name,
) -> Result<(), AllocError>
    ensures ok { OnOk result (names.new ≡ with_name names.old priority kind name.now) }
    ensures err { OnErr result (names.new ≡ names.old) }
{
    if priority == 0 {
        names.remove(name);
        Ok(())
    } else {
        names.insert(alloc, name, Definition { priority, kind })
    }
}

impl OpTable {
    fn empty(alloc: Global) -> OpTable
        ensures { result ≡ no_operators }
    {
        OpTable {
            prefixes: ByName::new(alloc),
            infixes: ByName::new(alloc),
            postfixes: ByName::new(alloc),
        }
    }

    fn set_all(&mut self, alloc: Global, entries: &[(u32, OpKind, &str)]) -> Result<(), AllocError>
        ensures { OnOk result (self.new ≡ with_entries self.old entries.now) }
    {
        for (priority, kind, text) in entries {
            let name = Name::new(Vec::from_slice(alloc, text.as_bytes())?);
            self.set(alloc, *priority, *kind, &name)?;
        }
        Ok(())
    }

    /// The table that each text begins with.
    #[tactic(auto, unfolding(crate::specs::Operators::standard))]
    pub fn standard(alloc: Global) -> Result<OpTable, AllocError>
        ensures { IfOk result (λ table. table ≡ standard) }
    {
        let mut table = OpTable::empty(alloc);
        table.set_all(alloc, &STANDARD)?;
        Ok(table)
    }

    /// The operator of a class with that name.
    pub fn find(&self, class: Class, name: &Name) -> Option<Definition>
        ensures { result ≡ look_up self.now class name.now }
    {
        match class {
            Class::Prefix => self.prefixes.get(name),
            Class::Infix => self.infixes.get(name),
            Class::Postfix => self.postfixes.get(name),
        }
    }

    fn clashes(&self, class: Class, name: &Name) -> bool
        ensures { result ≡ clashes self.now class name.now }
    {
        match class {
            Class::Prefix => false,
            Class::Infix => self.find(Class::Postfix, name).is_some(),
            Class::Postfix => self.find(Class::Infix, name).is_some(),
        }
    }

    #[tactic(auto, unfolding(crate::specs::Operators::with_operator))]
    fn set(
        &mut self,
        alloc: Global,
        priority: u32,
        kind: OpKind,
        name: &Name,
    ) -> Result<(), AllocError>
        ensures ok { OnOk result (self.new ≡ with_operator self.old priority kind name.now) }
        ensures err { OnErr result (self.new ≡ self.old) }
    {
        match kind.class() {
            Class::Prefix => define(alloc, &mut self.prefixes, priority, kind, name),
            Class::Infix => define(alloc, &mut self.infixes, priority, kind, name),
            Class::Postfix => define(alloc, &mut self.postfixes, priority, kind, name),
        }
    }

    #[tactic(auto, unfolding(crate::specs::Operators::refusal))]
    /// Makes the name an operator of this priority, from 1 to 1200, and kind, in the place of its operator of that class
    /// (ISO/IEC 13211-1:1995, 8.14.3). Priority 0 takes that operator away.
    pub fn add(
        &mut self,
        alloc: Global,
        priority: u32,
        kind: OpKind,
        name: &Name,
    ) -> Result<(), OpFail>
        ensures cause { MatchOption (refusal self.old priority kind name.now) (IsOkUnless result OpFail.Memory) (λ cause. result ≡ Err cause) }
        ensures ok { OnOk result (self.new ≡ with_operator self.old priority kind name.now) }
        ensures err { OnErr result (self.new ≡ self.old) }
    {
        if priority > 1200 {
            return Err(OpFail::BadPriority);
        }
        if is_reserved(name) {
            return Err(OpFail::BadName);
        }
        if priority > 0 && self.clashes(kind.class(), name) {
            return Err(OpFail::InfixAndPostfix);
        }
        self.set(alloc, priority, kind, name)?;
        Ok(())
    }
}
