// Threads may share a work.
ghost use denote.Param.Send.{IsSync};
ghost use Rattle.core_machine.specs.contracts.work.Work.{the_row};

use core_machine::work::Work;

fn is_shared<T: Sync>(value: &T)
    ensures { IsSync T.row }
{
    let _ = value;
}

/// It has a proof only because threads may share each part of a work, and tells the caller that they may share the work.
pub fn works_are_shared(work: &Work)
    ensures { IsSync the_row }
{
    is_shared(&work.nest);
    is_shared(&work.arrays);
    is_shared(&work.values);
    is_shared(&work.sched);
}
