//! The dump that an audit finds clean.
ghost use Rattle.std.specs.Prelude.{◌≡◌, true, IfOk, OnOk, IsErrOf};
ghost use Rattle.auditor.specs.Audited.{IsAudited};
ghost use Rattle.auditor.specs.Verdict.{begins, IsVerdict};
ghost use Rattle.auditor.specs.declared.verdicts.Verdict.TheVariants.{Clean as Legal};
ghost use Rattle.dump_text.specs.Dump.{IsDump};

use crate::clean_dumps::faults::DumpFault;
use crate::{Audited, one_verdict};
use dump_text::{Dump, one_reading};

impl Audited<'_> {
    /// The dump, where it is clean: its events can then begin. The error is `NotClean`, exactly where it is not.
    pub fn clean(&self) -> Result<&Dump, DumpFault>
        requires { IsAudited self.now }
        ensures clean { OnOk result (IsVerdict self.now.bytes.now Legal) }
        ensures dump { IfOk result (λ dump. IsDump self.now.bytes.now dump.now) }
        ensures begins { IfOk result (λ dump. begins dump.now ≡ true) }
        ensures unclean { IsErrOf result DumpFault.NotClean → IsVerdict self.now.bytes.now Legal → ⊥ }
    {
        one_reading();
        one_verdict();
        match self.false_line {
            None => Ok(&self.dump),
            Some(_) => Err(DumpFault::NotClean),
        }
    }
}
