ghost use Rattle.std.specs.Prelude.{◌≡◌, List, map};
ghost use Rattle.spoc_base.specs.declared.place.Source.{Source};
ghost use Rattle.spoc_base.specs.declared.fault.Fault.{Fault};
ghost use Rattle.policy_model.specs.Zones.{Site};
ghost use Rattle.policy_model.specs.FirstFault.{FaultCase};
ghost use Rattle.topology.specs.Told.{IsTold};
ghost use Rattle.fault_text.specs.Texts.{pair_of, fault_line};
ghost use Rattle.fault_text.specs.Cases.{case_line};

/// A fault that tells a case is printed as that case by the names of the things in the policy.
pub fn told_lines_are_those()
    ensures { (sources : List Source) (s : Site) (c : FaultCase) (f : Fault) → IsTold sources s c f → fault_line (map pair_of sources) f ≡ case_line s c }
{}
