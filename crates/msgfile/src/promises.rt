// What is promised of message files: the function carries a theorem, and does nothing else.
ghost use Rattle.msgfile.specs.Promise.{WrittenBack};

#[tactic(auto, using(crate::proofs::Reading::written_back))]
pub fn promise()
    ensures { WrittenBack }
{}
