// The records of a data set, as a file takes them.
ghost use Rattle.std.specs.Prelude.{◌≡◌, ◌≤◌, ◌<◌, ◌+◌, ◌++◌, length, OnOk, OnErr};
ghost use Rattle.template_def.specs.Kept.{AppendsFront};
ghost use Rattle.file_output.specs.Sets.{Body};

use col_base::Octets;
use std::alloc::AllocError;
use std::sync::Arc;
use template_def::Definition;

/// Records of one definition.
pub trait SetRecords {
    /// The definition, the octets of the records joined, and how many records they are.
    ghost body: { Self → Body };

    fn definition(&self) -> &Arc<Definition>
        ensures { result.now.value ≡ (body self.now).definition };

    /// The octets of the records.
    fn size(&self) -> usize
        ensures { result ≡ length (body self.now).octets };

    /// How many records they are.
    fn count(&self) -> u32
        ensures { result ≡ (body self.now).records };

    /// Appends the records. Where memory is wanted a front of them is appended.
    fn put(&self, out: &mut Octets) -> Result<(), AllocError>
        ensures ok { OnOk result (out.new ≡ out.old ++ (body self.now).octets) }
        ensures err { OnErr result (AppendsFront out.old out.new (body self.now).octets) };
}
