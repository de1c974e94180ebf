use crate::scripts::Stored;

pub(crate) const SCRIPT: Stored = Stored {
    rack: "places=2 room=2",
    lines: "timeout 1
push 1 2 5
look 2 1 5
elect 2
push 2 1 5
look 1 2 5
win 1
submit 1 4 2 -500
submit 1 4 3 500
submit 1 4 2 250
show 1
timeout 1
push 1 2 5
look 2 1 5
elect 2
push 2 1 5
look 1 2 5
win 1
ship 1 2
take 2 1
",
    prints: "ok 0 1
ok
ok
ok 2
ok
ok
ok 0 1
ok 0 1 1
ok 0 1 2
no 10
card 1: leader
  epoch 0.1, new epoch 0.1, vote 0.1 with 0.0.0
  accepted 0.1.2, committed 0.0.0, next 0.1.0
  peer 2: nothing shipped; accept 0.0.0, vote 0.1 with 0.0.0, commit 0.0.0
  peer 3: nothing shipped; accept 0.0.0, vote 0.0 with 0.0.0, commit 0.0.0
  log: 2 of 2 places
    0.1.1 queue 4: post -500 cents to carrier 2
    0.1.2 queue 4: post 500 cents to carrier 3
  ledger: every balance is 0
ok 1 1
ok
ok
ok 2
ok
ok
ok 1 1
no 11
no 6
card 1
card 2
card 3
",
};
