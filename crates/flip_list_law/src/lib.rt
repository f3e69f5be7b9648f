//! Flips, and the laws of flip lists, of their grouping into rounds, and of following one more flip.
#![tactic(auto)]

mod threads;

ghost use Rattle.flip_list_law.specs.Laws.{FlipsLead, FlipListsKeepTriangulations, EdgesDetermineFlips, EdgesFlipInTurn, NumbersCountMakers, RoundsGroupByNumber, GroupingReplays, LastNumbersCountMakers, FlipsAppend, UndoneByTheMaker, FlipsCancel, RemovalKeepsMakers, FollowingLeads, LastImages, LastImagesLeadBack, RoundsFlipInTurn};

use edge_table::Edge;

/// A flip: an edge gives way to its image.
#[derive(Clone, Copy, Debug, PartialEq, Eq)]
pub struct Flip {
    pub edge: Edge,
    pub image: Edge,
}

/// The laws of flip lists, their grouping into rounds, and following one more flip.
pub fn laws()
    ensures flips_lead { FlipsLead }
    ensures flip_lists_keep_triangulations { FlipListsKeepTriangulations }
    ensures edges_determine_flips { EdgesDetermineFlips }
    ensures edges_flip_in_turn { EdgesFlipInTurn }
    ensures numbers_count_makers { NumbersCountMakers }
    ensures rounds_group_by_number { RoundsGroupByNumber }
    ensures grouping_replays { GroupingReplays }
    ensures last_numbers_count_makers { LastNumbersCountMakers }
    ensures flips_append { FlipsAppend }
    ensures undone_by_the_maker { UndoneByTheMaker }
    ensures flips_cancel { FlipsCancel }
    ensures removal_keeps_makers { RemovalKeepsMakers }
    ensures following_leads { FollowingLeads }
    ensures last_images { LastImages }
    ensures last_images_lead_back { LastImagesLeadBack }
    ensures rounds_flip_in_turn { RoundsFlipInTurn }
{}
