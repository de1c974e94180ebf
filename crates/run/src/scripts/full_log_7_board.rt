use crate::scripts::Stored;

pub(crate) const SCRIPT: Stored = Stored {
    rack: "cards=7 places=3 room=3 machine=board",
    lines: "timeout 1
push 1 2 5
look 2 1 5
elect 2
push 2 1 5
look 1 2 5
push 1 3 5
look 3 1 5
elect 3
push 3 1 5
look 1 3 5
push 1 4 5
look 4 1 5
elect 4
push 4 1 5
look 1 4 5
win 1
submit 1 4 7 1 42
submit 1 4 7 1 43
submit 1 4 7 2 42
submit 1 4 7 1 42
show 1
timeout 1
push 1 2 5
look 2 1 5
elect 2
push 2 1 5
look 1 2 5
push 1 3 5
look 3 1 5
elect 3
push 3 1 5
look 1 3 5
push 1 4 5
look 4 1 5
elect 4
push 4 1 5
look 1 4 5
win 1
ship 1 2
take 2 1
",
    prints: "ok 0 1
ok
ok
ok 2
ok
ok
ok
ok
ok 2
ok
ok
ok
ok
ok 2
ok
ok
ok 0 1
ok 0 1 1
ok 0 1 2
ok 0 1 3
no 10
card 1: leader
  epoch 0.1, new epoch 0.1, vote 0.1 with 0.0.0
  accepted 0.1.3, committed 0.0.0, next 0.1.0
  peer 2: nothing shipped; accept 0.0.0, vote 0.1 with 0.0.0, commit 0.0.0
  peer 3: nothing shipped; accept 0.0.0, vote 0.1 with 0.0.0, commit 0.0.0
  peer 4: nothing shipped; accept 0.0.0, vote 0.1 with 0.0.0, commit 0.0.0
  peer 5: nothing shipped; accept 0.0.0, vote 0.0 with 0.0.0, commit 0.0.0
  peer 6: nothing shipped; accept 0.0.0, vote 0.0 with 0.0.0, commit 0.0.0
  peer 7: nothing shipped; accept 0.0.0, vote 0.0 with 0.0.0, commit 0.0.0
  log: 3 of 3 places
    0.1.1 queue 4: book load 7 for carrier 42
    0.1.2 queue 4: book load 7 for carrier 43
    0.1.3 queue 4: release load 7 by carrier 42
  board: every load is open
ok 1 1
ok
ok
ok 2
ok
ok
ok
ok
ok 2
ok
ok
ok
ok
ok 2
ok
ok
ok 1 1
no 11
no 6
card 1
card 2
card 3
card 4
card 5
card 6
card 7
",
};
