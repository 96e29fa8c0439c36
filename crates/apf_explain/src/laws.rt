//! What the readers' faults say of the values that the lines name. The functions run no code: each contract is a law.

ghost use Rattle.std.specs.Prelude.{◌≡◌, ℕ, false, List, Option, Some, None, Err};
ghost use Rattle.serde_json.specs.Data.{Data, Members};
ghost use Rattle.serde_json.specs.Find.{as_object};
ghost use Rattle.apf_files.specs.ConfigFile.{config_of};
ghost use Rattle.apf_files.specs.JsonFile.{all_known};
ghost use Rattle.apf_files.specs.RequestsFile.{flow_of, requests_of};
ghost use Rattle.apf_files.specs.ScriptFile.{script_of};
ghost use Rattle.apf_files.specs.declared.config.ConfigFault.{ConfigFault};
ghost use Rattle.apf_files.specs.declared.requests.RequestFault.{RequestFault};
ghost use Rattle.apf_files.specs.declared.script.ScriptFault.{ScriptFault};
ghost use Rattle.apf_traces.specs.TraceFile.{Line, trace_of};
ghost use Rattle.apf_traces.specs.declared.fault.TraceFault.{TraceFault};
ghost use Rattle.apf_explain.specs.FlowFaults.{flow_fault_of};
ghost use Rattle.apf_explain.specs.Keys.{is_key_of};
ghost use Rattle.apf_explain.specs.Shown.{IsConfigShown, IsRequestsShown, IsScriptShown, NamesUnknown};
ghost use Rattle.apf_explain.specs.declared.flow.FlowFault.{FlowFault};
ghost use Rattle.apf_explain.specs.declared.keys.Keys.{Keys};
ghost use Rattle.apf_explain.specs.TraceShown.{IsTraceShown};
ghost use Rattle.apf_audit.specs.AuditLog.{judged_line};
ghost use Rattle.apf_audit.specs.declared.choice.Choice.{Choice};
ghost use Rattle.apf_audit.specs.declared.fault.AuditFault.{AuditFault};
ghost use Rattle.apf_explain.specs.AuditShown.{IsAuditShown};

/// The law of a config's fault. Where it is a bad value, a value stands at that key, and is none that the line says may
/// stand there. Where a key is unknown, the object has the one that the line names, and it is none of a config's keys.
pub fn every_config_fault_is_shown()
    ensures { (d : Data) (fault : ConfigFault) → config_of d ≡ Err fault → IsConfigShown d fault }
{}

/// The law of a requests file's fault: the same of the request that the fault names, which is there.
pub fn every_request_fault_is_shown()
    ensures { (d : Data) (fault : RequestFault) → requests_of d ≡ Err fault → IsRequestsShown d fault }
{}

/// The law of a script's fault. The line that it names is there. A bad line is no command. Else the line's command has
/// a number: of a request that there is not, or of seats that are outside the range.
pub fn every_script_fault_is_shown()
    ensures { (requests : ℕ) (bytes : List ℕ) (fault : ScriptFault) → script_of requests bytes ≡ Err fault → IsScriptShown requests bytes fault }
{}

/// The law of a trace's fault. The line that it names is there, and has the fault: of a bad value, none of those that
/// the line says may stand at its key stands there; of an unknown key, the object has the one that is named.
pub fn every_trace_fault_is_shown()
    ensures { (bytes : List ℕ) (fault : TraceFault) → trace_of bytes ≡ Err fault → IsTraceShown bytes fault }
{}

/// The law of the fault of a line of an audit log. It names the line's number, and the line has the fault: of a bad value,
/// none of those that the line says may stand at its key stands there.
pub fn every_audit_fault_is_shown()
    ensures { (choice : Choice) (number : ℕ) (line : Line) (fault : AuditFault) → judged_line choice number line ≡ Err fault → IsAuditShown number line fault }
{}

/// The law of a flow's fault: where a flow can't be told from its three values, one of the faults of flows is told.
pub fn every_flow_fault_is_told()
    ensures { (hash schema distinguisher : Option Data) → flow_of hash schema distinguisher ≡ None → (f : FlowFault) × (flow_fault_of hash schema distinguisher ≡ Some f) }
{}

/// The law of an unknown key: where not each key of an object is known, the one that is named is unknown, and is a key of
/// the object.
pub fn every_unknown_key_is_named()
    ensures { (keys : Keys) (d : Data) (ms : Members) → as_object d ≡ Some ms → all_known (is_key_of keys) ms ≡ false → NamesUnknown keys d }
{}
