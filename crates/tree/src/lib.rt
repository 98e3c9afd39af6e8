#![tactic(auto)]

ghost use Rattle.tree.specs.Facts.{FollowTheRules, SlotsInOrder, FollowBareRules, OneOutcome, JoinAdds, JoinKeeps, SplitKeeps, EditsSpell, HeightsBounded, SlotsKeep, EditsCount, EditsCost};

// Joins and splits of balanced trees are what the relations on trees with slots allow, and nothing else is.
pub fn functions_follow_the_rules()
    ensures { FollowTheRules }
{}

// A plain join, a single and a double turn, on either side, take their slots inner before outer, left before right.
pub fn turns_take_slots_in_order()
    ensures { SlotsInOrder }
{}

// With the slots forgotten, joins, splits and edits are what the relations on bare trees allow, and nothing else is.
pub fn bare_trees_follow_the_rules()
    ensures { FollowBareRules }
{}

// The relations on bare trees leave no choice.
pub fn bare_rules_leave_no_choice()
    ensures { OneOutcome }
{}

// A join of any two trees: sizes, pieces and spelled bytes add up.
pub fn join_adds_up()
    ensures { JoinAdds }
{}

// A join of balanced trees: its balance, its height, its slots and how many it takes.
pub fn join_keeps_balance()
    ensures { JoinKeeps }
{}

// A split strictly inside a balanced tree: the parts' bytes, balance, heights and slots.
pub fn split_keeps_balance()
    ensures { SplitKeeps }
{}

// The edits spell what the same edits of plain byte strings give.
pub fn edits_spell_their_bytes()
    ensures { EditsSpell }
{}

// High trees have many pieces, so trees of few bytes are low.
pub fn heights_are_bounded()
    ensures { HeightsBounded }
{}

// What is written behind the slots in use is stored there, and stays stored when later slots are freed.
pub fn slots_keep_their_trees()
    ensures { SlotsKeep }
{}

// The edits make what their splits and joins make, and nothing where there is nothing to do.
pub fn edits_count_what_they_make()
    ensures { EditsCount }
{}

// The slots that edits of trees of a given height take at most.
pub fn edits_take_few_slots()
    ensures { EditsCost }
{}
