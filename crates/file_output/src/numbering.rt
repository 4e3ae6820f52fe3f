// The numbers of a file's definitions.
ghost use Rattle.std.specs.Prelude.{◌≡◌, ◌≤◌, ◌<◌, ◌+◌, ◌++◌, [], ◌∷◌, ◌==◌, if◌then◌else◌, length, find, nat_lt, None, Some, IfErr, OnOk, OnErr, List, ℕ};
ghost use Rattle.std.specs.List.{AllByRecursion};
ghost use Rattle.run_spec.specs.Work.{Item};
ghost use Rattle.file_spec.specs.File.{needed_by};
ghost use Rattle.file_output.specs.Fault.{AtLimit};
ghost use Rattle.file_output.specs.Sets.{domain_after, head_in, numbers_in, sets_size, written_in};
ghost use Rattle.file_output.specs.Stands.{domain_in, IsItemOf, IsPut, StandsFor};
ghost use Rattle.file_output.specs.Domains.{new_domain};
ghost use Rattle.file_output.specs.FileSets.{HasRecords, IsFileItem, file_sets_size};
ghost use Rattle.file_output.specs.Placed.{IsPlacedItem, placed_sets_size};

use crate::counting::count_sets;
use crate::domain::DomainNumbers;
use crate::fault::FileFault;
use crate::file_set::FileSets;
use crate::kept::Numbering;
use crate::placed::PlacedSet;
use crate::records::SetRecords;
use col_base::Octets;
use indexmap::IndexMap;
use std::alloc::{AllocFailed, Global};

impl Numbering {
    /// No definition. Numbers go from 256 to the last one. It takes no memory.
    pub fn new(alloc: Global, last: u16) -> Self
        ensures last { result.last ≡ last }
        ensures none { (domain : ℕ) → domain_in result domain ≡ new_domain }
    {
        Numbering {
            alloc,
            last,
            domains: IndexMap::new(alloc),
        }
    }

    /// Takes the sets of a message of a domain, each with a record at least, and appends the messages of an IPFIX File for
    /// them: one for each definition that is new in the domain, and one with the sets. Refused where a definition needs a
    /// number above the last one, or where memory is wanted: then nothing changes. The export time is in seconds since 1970.
    pub fn put<S: SetRecords>(
        &mut self,
        domain: u32,
        export: u32,
        sets: &[S],
        out: &mut Octets,
    ) -> Result<(), FileFault>
        requires { 16 + sets_size S.body sets.now ≤ 65535 }
        ensures ok { OnOk result ((items : List Item) (item : Item) → StandsFor items self.old → IsItemOf S.body domain export sets.now item
            → IsPut self.old.last items item self.new out.old out.new) }
        ensures limit { IfErr result (AtLimit (λ n. (items : List Item) (item : Item) → StandsFor items self.old → IsItemOf S.body domain export sets.now item
            → find (nat_lt self.old.last) (needed_by (items ++ item ∷ []) item) ≡ Some n)) }
        ensures kept { OnErr result ((d : ℕ) → domain_in self.new d ≡ domain_in self.old d) }
        ensures unwritten { OnErr result (out.new ≡ out.old) }
        ensures last { self.new.last ≡ self.old.last }
    {
        match self.put_sets(domain, export, sets, out) {
            Ok(()) => Ok(()),
            Err(fault) => Err(fault),
        }
    }

    /// The same of sets whose octets are joined already: each are the octets of a record of its definition or of more, without
    /// padding. The data message and the message of each definition have at most 65,535 octets.
    pub fn put_message(
        &mut self,
        domain: u32,
        export: u32,
        sets: &FileSets,
        out: &mut Octets,
    ) -> Result<(), FileFault>
        requires records { AllByRecursion HasRecords sets.now.items }
        requires room { 16 + file_sets_size sets.now.items ≤ 65535 }
        ensures ok { OnOk result ((items : List Item) (item : Item) → StandsFor items self.old → IsFileItem domain export sets.now.items item
            → IsPut self.old.last items item self.new out.old out.new) }
        ensures limit { IfErr result (AtLimit (λ n. (items : List Item) (item : Item) → StandsFor items self.old → IsFileItem domain export sets.now.items item
            → find (nat_lt self.old.last) (needed_by (items ++ item ∷ []) item) ≡ Some n)) }
        ensures kept { OnErr result ((d : ℕ) → domain_in self.new d ≡ domain_in self.old d) }
        ensures unwritten { OnErr result (out.new ≡ out.old) }
        ensures last { self.new.last ≡ self.old.last }
    {
        let Ok(counted) = count_sets(self.alloc, sets) else {
            return Err(FileFault::NoMemory);
        };
        match self.put(domain, export, &counted, out) {
            Ok(()) => Ok(()),
            Err(fault) => Err(fault),
        }
    }

    /// The same of records where they stand: at places of the octets of a message, or of a room behind intermediates. Each is
    /// copied once, and those that lie beside one another are copied together.
    pub fn put_placed(
        &mut self,
        domain: u32,
        export: u32,
        sets: &[PlacedSet<'_>],
        out: &mut Octets,
    ) -> Result<(), FileFault>
        requires { 16 + placed_sets_size sets.now ≤ 65535 }
        ensures ok { OnOk result ((items : List Item) (item : Item) → StandsFor items self.old → IsPlacedItem domain export sets.now item
            → IsPut self.old.last items item self.new out.old out.new) }
        ensures limit { IfErr result (AtLimit (λ n. (items : List Item) (item : Item) → StandsFor items self.old → IsPlacedItem domain export sets.now item
            → find (nat_lt self.old.last) (needed_by (items ++ item ∷ []) item) ≡ Some n)) }
        ensures kept { OnErr result ((d : ℕ) → domain_in self.new d ≡ domain_in self.old d) }
        ensures unwritten { OnErr result (out.new ≡ out.old) }
        ensures last { self.new.last ≡ self.old.last }
    {
        match self.put(domain, export, sets, out) {
            Ok(()) => Ok(()),
            Err(fault) => Err(fault),
        }
    }

    /// The same, by what is kept of the domain.
    fn put_sets<S: SetRecords>(
        &mut self,
        domain: u32,
        export: u32,
        sets: &[S],
        out: &mut Octets,
    ) -> Result<(), FileFault>
        requires { 16 + sets_size S.body sets.now ≤ 65535 }
        ensures ok { OnOk result (out.new ≡ out.old ++ written_in S.body (head_in export domain (domain_in self.old domain)) (domain_in self.old domain).known sets.now) }
        ensures after { OnOk result ((d : ℕ) → domain_in self.new d ≡ (if domain == d then domain_after S.body (domain_in self.old domain) sets.now else domain_in self.old d)) }
        ensures enough { OnOk result (find (nat_lt self.old.last) (numbers_in S.body (domain_in self.old domain).known sets.now) ≡ None) }
        ensures limit { IfErr result (AtLimit (λ n. find (nat_lt self.old.last) (numbers_in S.body (domain_in self.old domain).known sets.now) ≡ Some n)) }
        ensures kept { OnErr result ((d : ℕ) → domain_in self.new d ≡ domain_in self.old d) }
        ensures unwritten { OnErr result (out.new ≡ out.old) }
        ensures last { self.new.last ≡ self.old.last }
    {
        if let Some(numbers) = self.domains.get_mut(&domain) {
            return numbers.put(domain, export, sets, self.last, out);
        }
        let size = out.len();
        let mut numbers = DomainNumbers::new(self.alloc);
        match numbers.put(domain, export, sets, self.last, out) {
            Ok(()) => {}
            Err(fault) => return Err(fault),
        }
        match self.domains.insert(domain, numbers) {
            Ok(_) => Ok(()),
            Err(_) => {
                out.truncate(size);
                Err(FileFault::NoMemory)
            }
        }
    }
}
