//! A law over the names in fault lines. The function does nothing; its contract is the law.

ghost use Rattle.std.specs.Prelude.{◌≡◌, length, map};
ghost use Rattle.std.specs.Set.{distinct_count};
ghost use Rattle.std.specs.Str.{bytes_eq};
ghost use Rattle.pb_desk.specs.declared.audit_fault.TheConstants as audit;
ghost use Rattle.pb_export.specs.declared.export_fault.TheConstants as export;
ghost use Rattle.pb_read.specs.declared.fault.TheConstants as read;
ghost use Rattle.pb_read.specs.declared.warning.TheConstants as warning;
ghost use Rattle.pb_rounds.specs.declared.count_fault.TheConstants as count;
ghost use Rattle.pb_script.specs.declared.script_fault.TheConstants as script;

/// No two faults of one kind have the same name in a fault line, and no two warnings: each table has as many
/// different names as names.
pub fn names_differ()
    ensures read { distinct_count bytes_eq (map (λ name. name.now) read.NAMES) ≡ length read.NAMES }
    ensures warning { distinct_count bytes_eq (map (λ name. name.now) warning.NAMES) ≡ length warning.NAMES }
    ensures script { distinct_count bytes_eq (map (λ name. name.now) script.NAMES) ≡ length script.NAMES }
    ensures audit { distinct_count bytes_eq (map (λ name. name.now) audit.NAMES) ≡ length audit.NAMES }
    ensures count { distinct_count bytes_eq (map (λ name. name.now) count.NAMES) ≡ length count.NAMES }
    ensures export { distinct_count bytes_eq (map (λ name. name.now) export.NAMES) ≡ length export.NAMES }
{}
