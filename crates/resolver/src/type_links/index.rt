ghost use Rattle.std.specs.Prelude.{◌≡◌, None, IfOk, MatchOption, slice_get};
ghost use Rattle.resolver.specs.type_links.Index.{type_by, forwarder_by, assembly_by, IsIndexOf, IsIndex, IsAsm, type_at, encloser_at, forwarded_at, assembly_at};

use crate::type_links::assemblies::assemblies_of;
use crate::type_links::enclosers::Enclosers;
use crate::type_links::forwarders::forwarders;
use crate::type_links::names::{TypeKey, TypeName, type_rows};
use il_base::world_model::AsmRec;
use il_base::{NoMemory, Seq};
use std::alloc::Global;
use std::collections::HashMap;

/// The index of an assembly: its types, forwarders and references to assemblies.
#[derive(Drop)]
pub(crate) struct AsmIndex<'a> {
    /// The first row of the types with each key.
    types: HashMap<TypeKey<'a>, u32>,
    enclosers: Enclosers,
    /// The AssemblyRef row of the assembly to which the type of each name is forwarded.
    forwarders: HashMap<TypeName<'a>, Option<u32>>,
    /// The assembly that each AssemblyRef row names.
    assemblies: Vec<Option<u32>>,
}

impl<'a> AsmIndex<'a> {
    fn of(alloc: Global, all: &[AsmRec], rec: &'a AsmRec) -> Result<AsmIndex<'a>, NoMemory>
        ensures { IfOk result (IsIndexOf all.now rec.now) }
    {
        let enclosers = Enclosers::of(alloc, rec)?;
        let types = type_rows(alloc, rec, &enclosers)?;
        let forwarders = forwarders(alloc, rec)?;
        let assemblies = assemblies_of(alloc, all, rec)?;
        Ok(AsmIndex {
            types,
            enclosers,
            forwarders,
            assemblies,
        })
    }

    fn type_in(&self, around: Option<u32>, name: TypeName<'_>) -> Option<u32>
        ensures { result ≡ type_by self.now around name.entry }
    {
        self.types.get(&TypeKey { around, name }).copied()
    }

    /// The AssemblyRef row of the assembly to which the type of this name is forwarded.
    fn forwarder(&self, name: TypeName<'_>) -> Option<u32>
        ensures { result ≡ forwarder_by self.now name.entry }
    {
        match self.forwarders.get(&name) {
            None => None,
            Some(row) => *row,
        }
    }

    /// The assembly that an AssemblyRef row names.
    fn assembly(&self, row: u32) -> Option<u32>
        ensures { result ≡ assembly_by self.now row }
    {
        match self.assemblies.get(row as usize) {
            None => None,
            Some(at) => *at,
        }
    }
}

/// The index of several assemblies, in which types are found by name. Assemblies and rows count from 0; the last
/// assembly is the core library.
#[derive(Drop)]
pub struct TypeIndex<'a> {
    pub all: &'a [AsmRec],
    asms: Seq<AsmIndex<'a>>,
}

impl<'a> TypeIndex<'a> {
    /// The index of these assemblies.
    pub fn of(alloc: Global, all: &'a [AsmRec]) -> Result<TypeIndex<'a>, NoMemory>
        ensures all { IfOk result (λ index. index.all.now ≡ all.now) }
        ensures index { IfOk result IsIndex }
    {
        let mut asms = Seq::new(alloc);
        for rec in all {
            let asm = AsmIndex::of(alloc, all, rec)?;
            asms.push(asm)?;
        }
        Ok(TypeIndex { all, asms })
    }

    fn asm(&self, a: u32) -> Option<&AsmIndex<'a>>
        requires { IsIndex self.now }
        ensures { MatchOption result (slice_get self.now.all.now a ≡ None) (λ x. IsAsm self.now.all.now a x.now) }
    {
        self.asms.get(a as usize)
    }

    /// The first type of an assembly with this encloser, which is a row of it, and this name; with None it isn't nested.
    pub fn type_in(&self, a: u32, around: Option<u32>, name: TypeName<'_>) -> Option<u32>
        requires { IsIndex self.now }
        ensures { result ≡ type_at self.now.all.now a around name.entry }
    {
        match self.asm(a) {
            None => None,
            Some(asm) => asm.type_in(around, name),
        }
    }

    /// The row of the type that encloses the type in a row of an assembly; None for a type that isn't nested.
    pub fn encloser(&self, a: u32, row: u32) -> Option<u32>
        requires { IsIndex self.now }
        ensures { result ≡ encloser_at self.now.all.now a row }
    {
        match self.asm(a) {
            None => None,
            Some(asm) => asm.enclosers.get(row),
        }
    }

    /// The assembly that an AssemblyRef row of an assembly names.
    pub(crate) fn assembly(&self, a: u32, row: u32) -> Option<u32>
        requires { IsIndex self.now }
        ensures { result ≡ assembly_at self.now.all.now a row }
    {
        match self.asm(a) {
            None => None,
            Some(asm) => asm.assembly(row),
        }
    }

    /// The assembly to which an assembly forwards the type of this name.
    pub(crate) fn forwarded(&self, a: u32, name: TypeName<'_>) -> Option<u32>
        requires { IsIndex self.now }
        ensures { result ≡ forwarded_at self.now.all.now a name.entry }
    {
        match self.asm(a) {
            None => None,
            Some(asm) => match asm.forwarder(name) {
                None => None,
                Some(row) => asm.assembly(row),
            },
        }
    }
}
