// What is promised of all code: the function carries a theorem in each clause, and does nothing else.
ghost use Rattle.code.specs.Promise.{NeverStuck, MoreBudget, Resumes, NotTooLong, AddedBehind, SaidOnWay, GoodExactly, FirstBad, Kept, RowsWiden, ByTable, OnlyClasses};

pub fn promise()
    ensures never_stuck { NeverStuck }
    ensures more_budget { MoreBudget }
    ensures resumes { Resumes }
    ensures not_too_long { NotTooLong }
    ensures only_classes { OnlyClasses }
    ensures added_behind { AddedBehind }
    ensures said_on_way { SaidOnWay }
    ensures good_exactly { GoodExactly }
    ensures first_bad { FirstBad }
    ensures kept { Kept }
    ensures rows_widen { RowsWiden }
    ensures by_table { ByTable }
{}
