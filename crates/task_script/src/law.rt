ghost use Rattle.std.specs.Prelude.{◌≡◌, ℕ, List, ◌⊎◌};
ghost use Rattle.task_script.specs.declared.script.Script.{Script};
ghost use Rattle.task_script.specs.declared.script.ScriptFault.{ScriptFault};
ghost use Rattle.task_script.specs.Script.{IsScript, FirstFault};
ghost use Rattle.task_script.specs.Forest.{IsForest};
ghost use Rattle.task_script.specs.Valid.{IsMachine, IsRoom, AreNames, names_of, AllBegin, AreCustoms};

/// Of a caller who brings so many works, `customs`: each input is one script or has one first fault, and never both;
/// which script it is doesn't depend on how many they are. The tasks of a script are a forest. Its shape is valid, with
/// as many tasks as the script has, two conditions for each, and no agent; a ring has room for 1 to 64 items; its names
/// are names and none stands twice; each plan is one that has read and put out nothing yet; and each task of `custom`
/// has the number of a work that no other task has. A law: the call does nothing.
pub fn law_script()
    ensures some { (customs : ℕ) (bytes : List ℕ) → ((s : Script) × IsScript customs bytes s)
        ⊎ ((f : ScriptFault) × FirstFault customs bytes f.line f.code) }
    ensures not_both { (customs : ℕ) (bytes : List ℕ) (s : Script) (line code : ℕ) → IsScript customs bytes s
        → FirstFault customs bytes line code → ⊥ }
    ensures one_script { (customs others : ℕ) (bytes : List ℕ) (s t : Script) → IsScript customs bytes s
        → IsScript others bytes t → t ≡ s }
    ensures one_fault { (customs : ℕ) (bytes : List ℕ) (line code other_line other_code : ℕ)
        → FirstFault customs bytes line code → FirstFault customs bytes other_line other_code
        → (line ≡ other_line) × (code ≡ other_code) }
    ensures forest { (customs : ℕ) (bytes : List ℕ) (s : Script) → IsScript customs bytes s → IsForest s.tasks }
    ensures machine { (customs : ℕ) (bytes : List ℕ) (s : Script) → IsScript customs bytes s
        → IsMachine s.shape s.tasks }
    ensures room { (customs : ℕ) (bytes : List ℕ) (s : Script) → IsScript customs bytes s → IsRoom s.room }
    ensures names { (customs : ℕ) (bytes : List ℕ) (s : Script) → IsScript customs bytes s
        → AreNames (names_of s.tasks) }
    ensures plans { (customs : ℕ) (bytes : List ℕ) (s : Script) → IsScript customs bytes s → AllBegin s.tasks }
    ensures customs { (customs : ℕ) (bytes : List ℕ) (s : Script) → IsScript customs bytes s
        → AreCustoms customs s.tasks }
{}
