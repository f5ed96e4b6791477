//! The theorem about types with variables, as the contract of a lemma function.

ghost use Rattle.types_theory.specs.type_variables.TypeVariables.{VariablesStandForAll};
ghost use Rattle.types_theory.specs.type_variables.TypeVariables.{FaultsAreOfInstances};
ghost use Rattle.types_theory.specs.type_variables.TypeVariables.{NumbersStandForAll};
ghost use Rattle.types_theory.specs.type_variables.TypeVariables.{ReachedAreClosed};

/// States that a value has a type with variables if and only if the value has every closed instance
/// of the type. If a value has a fault at the type, the value does not have every closed instance.
pub fn variables_stand_for_all()
    ensures types { VariablesStandForAll }
    ensures faults { FaultsAreOfInstances }
    ensures numbers { NumbersStandForAll }
    ensures closed { ReachedAreClosed }
{}
