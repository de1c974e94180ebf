use crate::scripts::Stored;

pub(crate) const SCRIPT: Stored = Stored {
    rack: "cards=5",
    lines: "timeout 1
push 1 2 5
look 2 1 5
elect 2
push 2 1 5
look 1 2 5
push 1 3 5
look 3 1 5
elect 3
push 3 1 5
look 1 3 5
win 1
submit 1 4 2 -500
show 1
timeout 2
push 2 3 5
look 3 2 5
elect 3
push 3 2 5
look 2 3 5
push 2 4 5
look 4 2 5
elect 4
push 4 2 5
look 2 4 5
win 2
ship 2 1
take 1 2
show 1
submit 2 4 3 500
ship 2 1
take 1 2
commit 2
ship 2 3
take 3 2
ship 2 3
take 3 2
push 3 2 4
look 2 3 4
ship 2 4
take 4 2
ship 2 4
take 4 2
push 4 2 4
look 2 4 4
commit 2
commit 2
push 2 3 6
push 2 4 6
look 3 2 6
look 4 2 6
commit 3
commit 4
commit 3
commit 4
push 2 1 6
look 1 2 6
commit 1
commit 1
commit 1
show 1
show 2
",
    prints: "ok 0 1
ok
ok
ok 2
ok
ok
ok
ok
ok 2
ok
ok
ok 0 1
ok 0 1 1
card 1: leader
  epoch 0.1, new epoch 0.1, vote 0.1 with 0.0.0
  accepted 0.1.1, committed 0.0.0, next 0.1.0
  peer 2: nothing shipped; accept 0.0.0, vote 0.1 with 0.0.0, commit 0.0.0
  peer 3: nothing shipped; accept 0.0.0, vote 0.1 with 0.0.0, commit 0.0.0
  peer 4: nothing shipped; accept 0.0.0, vote 0.0 with 0.0.0, commit 0.0.0
  peer 5: nothing shipped; accept 0.0.0, vote 0.0 with 0.0.0, commit 0.0.0
  log: 1 of 16 places
    0.1.1 queue 4: post -500 cents to carrier 2
  ledger: every balance is 0
ok 0 2
ok
ok
ok 2
ok
ok
ok
ok
ok 2
ok
ok
ok 0 2
ok 1
ok 2
card 1: follower
  epoch 0.2, new epoch 0.2, vote 0.1 with 0.0.0
  accepted 0.2.0, committed 0.0.0, next 0.2.0
  peer 2: nothing shipped; accept 0.0.0, vote 0.1 with 0.0.0, commit 0.0.0
  peer 3: nothing shipped; accept 0.0.0, vote 0.1 with 0.0.0, commit 0.0.0
  peer 4: nothing shipped; accept 0.0.0, vote 0.0 with 0.0.0, commit 0.0.0
  peer 5: nothing shipped; accept 0.0.0, vote 0.0 with 0.0.0, commit 0.0.0
  log: 0 of 16 places
  ledger: every balance is 0
ok 0 2 1
ok 1
ok 1
no 6
ok 1
ok 2
ok 1
ok 1
ok
ok
ok 1
ok 2
ok 1
ok 1
ok
ok
ok 0
ok 1
ok
ok
ok
ok
ok 0
ok 0
ok 1
ok 1
ok
ok
ok 0
ok 1
no 6
card 1: follower
  epoch 0.2, new epoch 0.2, vote 0.1 with 0.0.0
  accepted 0.2.1, committed 0.2.1, next 0.2.2
  peer 2: nothing shipped; accept 0.0.0, vote 0.1 with 0.0.0, commit 0.2.1
  peer 3: nothing shipped; accept 0.0.0, vote 0.1 with 0.0.0, commit 0.0.0
  peer 4: nothing shipped; accept 0.0.0, vote 0.0 with 0.0.0, commit 0.0.0
  peer 5: nothing shipped; accept 0.0.0, vote 0.0 with 0.0.0, commit 0.0.0
  log: 1 of 16 places
    0.2.1 queue 4: post 500 cents to carrier 3
  ledger: carrier 3 at 500 cents
card 2: leader
  epoch 0.2, new epoch 0.2, vote 0.2 with 0.0.0
  accepted 0.2.1, committed 0.2.1, next 0.2.2
  peer 1: shipped up to 1; accept 0.0.0, vote 0.1 with 0.0.0, commit 0.0.0
  peer 3: shipped up to 1; accept 0.2.1, vote 0.2 with 0.0.0, commit 0.0.0
  peer 4: shipped up to 1; accept 0.2.1, vote 0.2 with 0.0.0, commit 0.0.0
  peer 5: nothing shipped; accept 0.0.0, vote 0.0 with 0.0.0, commit 0.0.0
  log: 1 of 16 places
    0.2.1 queue 4: post 500 cents to carrier 3
  ledger: carrier 3 at 500 cents
card 1 0.2.1
card 2 0.2.1
card 3 0.2.1
card 4 0.2.1
card 5
",
};
