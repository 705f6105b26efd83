// Worked programs: what small programs mean, and how some of them are refused.
// Stands on elab_exact.
// Proved (`rows`): each outcome below, derived by the rules, each emitted term having its type by the typing rules of Fω;
// and each refusal, at its place and with what it keeps.
#![tactic(auto)]

ghost use Rattle.elab_examples.specs.PackageRow.{PackagesProgram};
ghost use Rattle.elab_examples.specs.FunctorRow.{FunctorProgram, GenerativeMeans};
ghost use Rattle.elab_examples.specs.CoercionRow.{FunctorCoercion};
ghost use Rattle.elab_examples.specs.IncludeRow.{IncludeMeans, FixingT, FixingU, ProjectMeans};
ghost use Rattle.elab_examples.specs.OutsideRow.{OutsideProject, OutsideSeq};
ghost use Rattle.elab_examples.specs.SharingRow.{GenerativeRefused, ApplicativeShares};
ghost use Rattle.elab_examples.specs.SumRow.{CaseProgram, DataProgram};
ghost use Rattle.elab_examples.specs.Rows.{EmptyProgram, SumProgram, SealingProgram, HiddenSumRefused, UnmatchedRefused, MissingRefused, OtherTypeRefused};

/// What small programs mean, and how some of them are refused.
pub fn rows()
    ensures empty { EmptyProgram }
    ensures sum { SumProgram }
    ensures sealing { SealingProgram }
    ensures packages { PackagesProgram }
    ensures functor { FunctorProgram }
    ensures coercion { FunctorCoercion }
    ensures including { IncludeMeans }
    ensures fixing_t { FixingT }
    ensures fixing_u { FixingU }
    ensures projecting { ProjectMeans }
    ensures generative { GenerativeMeans }
    ensures outside_project { OutsideProject }
    ensures outside_seq { OutsideSeq }
    ensures hidden_sum { HiddenSumRefused }
    ensures unmatched { UnmatchedRefused }
    ensures missing { MissingRefused }
    ensures other_type { OtherTypeRefused }
    ensures twice_generative { GenerativeRefused }
    ensures twice_applicative { ApplicativeShares }
    ensures case_of { CaseProgram }
    ensures data { DataProgram }
{}
