// Refusals for the layers' reasons to stop.
use crate::refusal::Refusal;
use crate::site::Site;
use answers::Memory;
use behaviour_profile::BehaviourStop;
use convert_tables::ConvertStop;
use efg_reader::EfgStop;
use enummixed::MixedStop;
use enumpure::ListStop;
use enumpure_trees::ChoiceStop;
use game_core::TooLarge;
use game_text::TextStop;
use kept_strategies::KeptStop;
use lemke_pivot::LcpStop;
use lex_tableau::UnfitPivot;
use ne_checker::CheckStop;
use nfg_reader::NfgStop;
use outside::{OpenFailed, ReadFailed, WriteFailed};
use perfect_recall::RecallStop;
use reduced_form::ReduceStop;
use sequence_form::SeqStop;
use std::alloc::AllocError;
use words::SettingsStop;
use zero_sum_lp::{LpStop, PlanStop};

impl From<Memory> for Refusal {
    ghost use Rattle.std.specs.Prelude.{◌≡◌};
    ghost use Rattle.refusals.specs.declared.refusal.Refusal.TheVariants as refusal;

    ghost from_gives = { λ _ r. r ≡ refusal.Memory };

    fn from(_memory: Memory) -> Refusal {
        Refusal::Memory
    }
}

impl From<AllocError> for Refusal {
    ghost use Rattle.std.specs.Prelude.{◌≡◌};
    ghost use Rattle.refusals.specs.declared.refusal.Refusal.TheVariants as refusal;

    ghost from_gives = { λ _ r. r ≡ refusal.Memory };

    fn from(_error: AllocError) -> Refusal {
        Refusal::Memory
    }
}

impl From<OpenFailed> for Refusal {
    ghost use Rattle.std.specs.Prelude.{◌≡◌};
    ghost use Rattle.refusals.specs.declared.refusal.Refusal.TheVariants as refusal;

    ghost from_gives = { λ _ r. r ≡ refusal.OpenFault };

    fn from(_failed: OpenFailed) -> Refusal {
        Refusal::OpenFault
    }
}

impl From<ReadFailed> for Refusal {
    ghost use Rattle.std.specs.Prelude.{◌≡◌};
    ghost use Rattle.refusals.specs.declared.refusal.Refusal.TheVariants as refusal;

    ghost from_gives = { λ _ r. r ≡ refusal.ReadFault };

    fn from(_failed: ReadFailed) -> Refusal {
        Refusal::ReadFault
    }
}

impl From<WriteFailed> for Refusal {
    ghost use Rattle.std.specs.Prelude.{◌≡◌};
    ghost use Rattle.refusals.specs.declared.refusal.Refusal.TheVariants as refusal;

    ghost from_gives = { λ _ r. r ≡ refusal.WriteFault };

    fn from(_failed: WriteFailed) -> Refusal {
        Refusal::WriteFault
    }
}

impl From<SettingsStop> for Refusal {
    ghost use Rattle.std.specs.Prelude.{◌≡◌};
    ghost use Rattle.refusals.specs.Told.{settings_refusal};

    ghost from_gives = { λ stop r. r ≡ settings_refusal stop };

    fn from(stop: SettingsStop) -> Refusal {
        match stop {
            SettingsStop::Usage(usage) => Refusal::Usage(usage),
            SettingsStop::Memory => Refusal::Memory,
        }
    }
}

impl From<TooLarge> for Refusal {
    ghost use Rattle.std.specs.Prelude.{◌≡◌};
    ghost use Rattle.refusals.specs.declared.refusal.Refusal.TheVariants as refusal;

    ghost from_gives = { λ limit r. r ≡ refusal.TooLarge limit };

    fn from(passed: TooLarge) -> Refusal {
        Refusal::TooLarge(passed)
    }
}

impl From<TextStop> for Refusal {
    ghost use Rattle.std.specs.Prelude.{◌≡◌};
    ghost use Rattle.refusals.specs.Told.{text_refusal};

    ghost from_gives = { λ stop r. r ≡ text_refusal stop };

    fn from(stop: TextStop) -> Refusal {
        match stop {
            TextStop::Fault(fault) => Refusal::Text(fault),
            TextStop::Memory => Refusal::Memory,
        }
    }
}

impl From<NfgStop> for Refusal {
    ghost use Rattle.std.specs.Prelude.{◌≡◌};
    ghost use Rattle.refusals.specs.Told.{nfg_refusal};

    ghost from_gives = { λ stop r. r ≡ nfg_refusal stop };

    fn from(stop: NfgStop) -> Refusal {
        match stop {
            NfgStop::Fault(fault) => Refusal::Nfg(fault),
            NfgStop::TooLarge(passed) => Refusal::TooLarge(passed),
            NfgStop::Memory => Refusal::Memory,
        }
    }
}

impl From<EfgStop> for Refusal {
    ghost use Rattle.std.specs.Prelude.{◌≡◌};
    ghost use Rattle.refusals.specs.Told.{efg_refusal};

    ghost from_gives = { λ stop r. r ≡ efg_refusal stop };

    fn from(stop: EfgStop) -> Refusal {
        match stop {
            EfgStop::Fault(fault) => Refusal::Efg(fault),
            EfgStop::TooLarge(passed) => Refusal::TooLarge(passed),
            EfgStop::Memory => Refusal::Memory,
        }
    }
}

impl From<ReduceStop> for Refusal {
    ghost use Rattle.std.specs.Prelude.{◌≡◌};
    ghost use Rattle.refusals.specs.Told.{form_refusal};

    ghost from_gives = { λ stop r. r ≡ form_refusal stop };

    fn from(stop: ReduceStop) -> Refusal {
        match stop {
            ReduceStop::TooLarge(passed) => Refusal::TooLarge(passed),
            ReduceStop::Range {
                profile,
                player,
                unfit,
            } => {
                let site = Site::Cell { profile, player };
                Refusal::Range { site, unfit }
            }
            ReduceStop::Memory => Refusal::Memory,
        }
    }
}

impl From<ListStop> for Refusal {
    ghost use Rattle.std.specs.Prelude.{◌≡◌};
    ghost use Rattle.refusals.specs.Told.{list_refusal};

    ghost from_gives = { λ stop r. r ≡ list_refusal stop };

    fn from(stop: ListStop) -> Refusal {
        match stop {
            ListStop::TooLarge(passed) => Refusal::TooLarge(passed),
            ListStop::Memory => Refusal::Memory,
        }
    }
}

impl From<ChoiceStop> for Refusal {
    ghost use Rattle.std.specs.Prelude.{◌≡◌};
    ghost use Rattle.refusals.specs.Told.{choice_refusal};

    ghost from_gives = { λ stop r. r ≡ choice_refusal stop };

    fn from(stop: ChoiceStop) -> Refusal {
        match stop {
            ChoiceStop::TooLarge(passed) => Refusal::TooLarge(passed),
            ChoiceStop::Range {
                choice,
                node,
                player,
                unfit,
            } => {
                let site = Site::Choice {
                    choice,
                    node,
                    player,
                };
                Refusal::Range { site, unfit }
            }
            ChoiceStop::Memory => Refusal::Memory,
        }
    }
}

impl From<RecallStop> for Refusal {
    ghost use Rattle.std.specs.Prelude.{◌≡◌};
    ghost use Rattle.refusals.specs.Told.{recall_refusal};

    ghost from_gives = { λ stop r. r ≡ recall_refusal stop };

    fn from(stop: RecallStop) -> Refusal {
        match stop {
            RecallStop::Forgets(forgets) => Refusal::Forgets(forgets),
            RecallStop::Memory => Refusal::Memory,
        }
    }
}

impl From<SeqStop> for Refusal {
    ghost use Rattle.std.specs.Prelude.{◌≡◌};
    ghost use Rattle.refusals.specs.Told.{sequence_refusal};

    ghost from_gives = { λ stop r. r ≡ sequence_refusal stop };

    fn from(stop: SeqStop) -> Refusal {
        match stop {
            SeqStop::NotTwoPlayers { count } => Refusal::NotTwoPlayers { count },
            SeqStop::Range { place, unfit } => Refusal::Range {
                site: Site::Place { place },
                unfit,
            },
            SeqStop::Memory => Refusal::Memory,
        }
    }
}

impl From<LpStop> for Refusal {
    ghost use Rattle.std.specs.Prelude.{◌≡◌};
    ghost use Rattle.refusals.specs.Told.{program_refusal};

    ghost from_gives = { λ stop r. r ≡ program_refusal stop };

    fn from(stop: LpStop) -> Refusal {
        match stop {
            LpStop::TooLarge(passed) => Refusal::TooLarge(passed),
            LpStop::SumRange { place, unfit } => Refusal::Range {
                site: Site::Sum { place },
                unfit,
            },
            LpStop::NotConstant(sums) => Refusal::NotConstant(sums),
            LpStop::GainRange { row, column, unfit } => Refusal::Range {
                site: Site::Gain { row, column },
                unfit,
            },
            LpStop::Start { row, unfit } => Refusal::Range {
                site: Site::Start { row },
                unfit,
            },
            LpStop::Memory => Refusal::Memory,
        }
    }
}

impl From<UnfitPivot> for Refusal {
    ghost use Rattle.std.specs.Prelude.{◌≡◌};
    ghost use Rattle.refusals.specs.Told.{pivot_refusal};

    ghost from_gives = { λ stop r. r ≡ pivot_refusal stop };

    fn from(stop: UnfitPivot) -> Refusal {
        Refusal::Range {
            site: Site::Step {
                step: stop.number,
                entering: stop.entering,
            },
            unfit: stop.unfit,
        }
    }
}

impl From<PlanStop> for Refusal {
    ghost use Rattle.std.specs.Prelude.{◌≡◌};
    ghost use Rattle.refusals.specs.Told.{plan_refusal};

    ghost from_gives = { λ stop r. r ≡ plan_refusal stop };

    fn from(stop: PlanStop) -> Refusal {
        match stop {
            PlanStop::Range { player, unfit } => Refusal::Range {
                site: Site::Plan { player },
                unfit,
            },
            PlanStop::Memory => Refusal::Memory,
        }
    }
}

impl From<LcpStop> for Refusal {
    ghost use Rattle.std.specs.Prelude.{◌≡◌};
    ghost use Rattle.refusals.specs.Told.{problem_refusal};

    ghost from_gives = { λ stop r. r ≡ problem_refusal stop };

    fn from(stop: LcpStop) -> Refusal {
        match stop {
            LcpStop::TooLarge(passed) => Refusal::TooLarge(passed),
            LcpStop::Range {
                player,
                row,
                column,
                unfit,
            } => Refusal::Range {
                site: Site::Cost {
                    player,
                    row,
                    column,
                },
                unfit,
            },
            LcpStop::Start { row, unfit } => Refusal::Range {
                site: Site::Start { row },
                unfit,
            },
            LcpStop::Memory => Refusal::Memory,
        }
    }
}

impl From<BehaviourStop> for Refusal {
    ghost use Rattle.std.specs.Prelude.{◌≡◌};
    ghost use Rattle.refusals.specs.Told.{behaviour_refusal};

    ghost from_gives = { λ stop r. r ≡ behaviour_refusal stop };

    fn from(stop: BehaviourStop) -> Refusal {
        match stop {
            BehaviourStop::Range { player, set, unfit } => Refusal::Range {
                site: Site::Behaviour { player, set },
                unfit,
            },
            BehaviourStop::Memory => Refusal::Memory,
        }
    }
}

impl From<MixedStop> for Refusal {
    ghost use Rattle.std.specs.Prelude.{◌≡◌};
    ghost use Rattle.refusals.specs.Told.{mixed_refusal};

    ghost from_gives = { λ stop r. r ≡ mixed_refusal stop };

    fn from(stop: MixedStop) -> Refusal {
        match stop {
            MixedStop::NotTwoPlayers { count } => Refusal::NotTwoPlayers { count },
            MixedStop::TooLarge(passed) => Refusal::TooLarge(passed),
            MixedStop::Shift {
                player,
                profile,
                unfit,
            } => Refusal::Range {
                site: Site::Shift { player, profile },
                unfit,
            },
            MixedStop::Start {
                polytope,
                row,
                unfit,
            } => Refusal::Range {
                site: Site::PolytopeStart { polytope, row },
                unfit,
            },
            MixedStop::Range {
                polytope,
                level,
                basis,
                entering,
                unfit,
            } => Refusal::Range {
                site: Site::Level {
                    polytope,
                    level,
                    basis,
                    entering,
                },
                unfit,
            },
            MixedStop::Scale { polytope, unfit } => Refusal::Range {
                site: Site::Scaling { polytope },
                unfit,
            },
            MixedStop::Memory => Refusal::Memory,
        }
    }
}

impl From<ConvertStop> for Refusal {
    ghost use Rattle.std.specs.Prelude.{◌≡◌};
    ghost use Rattle.refusals.specs.Told.{convert_refusal};

    ghost from_gives = { λ stop r. r ≡ convert_refusal stop };

    fn from(stop: ConvertStop) -> Refusal {
        match stop {
            ConvertStop::NoSuchPlayer { number } => Refusal::NoSuchPlayer { number },
            ConvertStop::SamePlayer { number } => Refusal::SamePlayer { number },
            ConvertStop::TooLarge(passed) => Refusal::TooLarge(passed),
            ConvertStop::Memory => Refusal::Memory,
        }
    }
}

impl From<CheckStop> for Refusal {
    ghost use Rattle.std.specs.Prelude.{◌≡◌};
    ghost use Rattle.refusals.specs.Told.{check_refusal};

    ghost from_gives = { λ stop r. r ≡ check_refusal stop };

    fn from(stop: CheckStop) -> Refusal {
        match stop {
            CheckStop::BadLine { line } => Refusal::BadLine { line },
            CheckStop::Range { line, unfit } => Refusal::Range {
                site: Site::Line { line },
                unfit,
            },
            CheckStop::TooLarge(passed) => Refusal::TooLarge(passed),
            CheckStop::Memory => Refusal::Memory,
        }
    }
}

impl From<KeptStop> for Refusal {
    ghost use Rattle.std.specs.Prelude.{◌≡◌};
    ghost use Rattle.refusals.specs.Told.{kept_refusal};

    ghost from_gives = { λ stop r. r ≡ kept_refusal stop };

    fn from(stop: KeptStop) -> Refusal {
        match stop {
            KeptStop::NotTwoPlayers { count } => Refusal::NotTwoPlayers { count },
            KeptStop::TooLarge(passed) => Refusal::TooLarge(passed),
            KeptStop::Memory => Refusal::Memory,
        }
    }
}
