// The theorems about typing and about the terms that elaboration uses.

ghost use Rattle.omega_terms.specs.CoercionRows.{SamePartTyped, MetaPartTyped, FieldsPartTyped, FunctorPartTyped, MatchPartTyped, AbsPartTyped};
ghost use Rattle.omega_terms.specs.TypingClaims.{RenamingKeepsTypes, SubstitutionKeepsTypes, TypesHaveKind, VariablesRetyped, NormalTypingIsTyping, NormalTypesGiven, InstancesKeepNormalTypes};

/// Laws of typing: renaming and substitution, for both sorts of variables at once, keep it; the type of a term has
/// kind `*`; term variables may be given convertible types. Typing in which every type is normal is typing, gives
/// normal types, and is kept where types are put in and all types brought to normal form.
///
/// Pierce, "Types and Programming Languages", section 30.3, Properties.
pub fn typing()
    ensures renaming { RenamingKeepsTypes }
    ensures substitution { SubstitutionKeepsTypes }
    ensures kinds { TypesHaveKind }
    ensures retyped { VariablesRetyped }
    ensures normal_typing { NormalTypingIsTyping }
    ensures normal_types { NormalTypesGiven }
    ensures instances { InstancesKeepNormalTypes }
{}

/// Each coercion term has the type of a function from the smaller signature's type to the larger one's, where its
/// inner coercions have theirs.
///
/// Rossberg, Russo and Dreyer, "F-ing modules" (JFP 2014), section 4, signature subtyping.
pub fn coercion_rows()
    ensures same_part { SamePartTyped }
    ensures meta_part { MetaPartTyped }
    ensures fields_part { FieldsPartTyped }
    ensures functor_part { FunctorPartTyped }
    ensures match_part { MatchPartTyped }
    ensures abs_part { AbsPartTyped }
{}
