//! The faults of parts without a meaning, by the number or the address that names the part, so that a part which many rows name is
//! read once.

ghost use Rattle.std.specs.Prelude.{◌≡◌, ℕ, None, Some, OnOk, nat_eq, if◌then◌else◌};
ghost use Rattle.world_reader.specs.row_reader.Faults.{fault_of};

use il_base::NoMemory;
use il_base::world_model::BadKind;
use std::alloc::Global;
use std::collections::HashMap;

/// Why a part has no meaning.
#[derive(Clone, Copy)]
pub struct Fault {
    pub why: BadKind,
    /// The IL offset of a body's fault, 0 for a signature.
    pub at: u32,
}

/// The faults of the parts that were met, by the numbers of their blobs or by their addresses.
#[derive(Drop)]
pub struct Faults {
    map: HashMap<u32, Fault>,
}

impl Faults {
    /// No faults. It takes no memory.
    pub fn new(alloc: Global) -> Faults
        ensures { (n : ℕ) → fault_of result n ≡ None }
    {
        Faults {
            map: HashMap::new(alloc),
        }
    }

    /// The fault of a part. None where no such part was met.
    pub fn get(&self, n: u32) -> Option<Fault>
        ensures { result ≡ fault_of self.now n }
    {
        self.map.get(&n).copied()
    }

    /// Keeps the fault of a part.
    pub fn put(&mut self, n: u32, fault: Fault) -> Result<(), NoMemory>
        ensures { OnOk result ((q : ℕ) → fault_of self.new q ≡ (if nat_eq q n then Some fault else fault_of self.old q)) }
    {
        self.map.insert(n, fault)?;
        Ok(())
    }
}

/// The faults met so far in the parts of a table's rows.
#[derive(Drop)]
pub struct Met {
    /// By the numbers of blobs.
    pub signatures: Faults,
    /// By addresses.
    pub bodies: Faults,
}

impl Met {
    /// No faults so far. It takes no memory.
    pub fn nothing(alloc: Global) -> Met
        ensures signatures { (n : ℕ) → fault_of result.signatures n ≡ None }
        ensures bodies { (n : ℕ) → fault_of result.bodies n ≡ None }
    {
        Met {
            signatures: Faults::new(alloc),
            bodies: Faults::new(alloc),
        }
    }
}
