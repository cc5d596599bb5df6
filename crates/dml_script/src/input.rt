//! The whole input of a script.

ghost use Rattle.std.specs.Prelude.{◌≡◌, ◌≢◌, ◌<◌, ◌≤◌, false, true, length, vec_len, Err, IfOk, IfSome, OnOk, IsErrOf};
ghost use Rattle.std.specs.Io.KnownBytes.{IsAtEnd};
ghost use Rattle.dml_grammar.specs.declared.faults.ScriptFault.{ScriptFault as TheFault};
ghost use Rattle.dml_script.specs.Watching.{inner_of, has_failed};
ghost use Rattle.dml_script.specs.declared.running.RunFault.TheVariants as faults;

use crate::running::RunFault;
use crate::watching::Watched;
use dml_grammar::MAX_SCRIPT;
use std::alloc::Global;
use std::io::Read;

/// All bytes of a reader, which is asked at most `MAX_SCRIPT + 1` times.
pub fn read_all<R: Read>(alloc: Global, reader: &mut Watched<R>) -> Result<Vec<u8>, RunFault>
    requires { has_failed reader.old ≡ false }
    ensures within { IfOk result (λ input. vec_len input ≤ MAX_SCRIPT) }
    ensures all { IfOk result (λ input. IfSome (R.remaining (inner_of reader.old)) (λ bytes. input.items ≡ bytes)) }
    ensures end { OnOk result (IsAtEnd (R.remaining (inner_of reader.new))) }
    ensures passed { result ≢ Err faults.Read → has_failed reader.new ≡ false }
    ensures read { IsErrOf result faults.Read → has_failed reader.new ≡ true }
    ensures too_long { IsErrOf result faults.TooLong
        → IfSome (R.remaining (inner_of reader.old)) (λ bytes. MAX_SCRIPT < length bytes) }
    ensures no_script { (fault : TheFault) → result ≢ Err (faults.Script fault) }
    ensures no_write { result ≢ Err faults.Write }
{
    let mut input = Vec::new(alloc);
    let mut chunk = [0; 8192];
    for _turn in 0..MAX_SCRIPT + 1 {
        let Ok(count) = reader.read(&mut chunk) else {
            return Err(RunFault::Read);
        };
        if count == 0 {
            return Ok(input);
        }
        input.extend_from_slice(&chunk[..count])?;
        if input.len() > MAX_SCRIPT {
            return Err(RunFault::TooLong);
        }
    }
    unreachable!()
}
