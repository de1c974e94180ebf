use crate::scripts::Stored;

pub(crate) const SCRIPT: Stored = Stored {
    rack: "machine=board",
    lines: "timeout 1
push 1 2 5
look 2 1 5
elect 2
push 2 1 5
look 1 2 5
win 1
submit 1 4 7 1 42
submit 1 4 8 1 43
ship 1 2
take 2 1
ship 1 2
take 2 1
ship 1 2
take 2 1
stop 1
elect 2
timeout 2
show 2
timeout 3
timeout 3
show 3
push 3 2 5
look 2 3 5
elect 2
show 2
elect 2
win 2
timeout 3
push 3 2 5
look 2 3 5
elect 2
show 2
win 2
push 2 3 5
look 3 2 5
elect 3
push 3 2 5
look 2 3 5
show 3
win 2
win 3
show 2
ship 2 3
show 2
take 3 2
show 3
push 3 2 4
look 2 3 4
commit 2
submit 2 4 7 2 42
ship 2 3
take 3 2
push 3 2 4
look 2 3 4
commit 2
commit 2
push 2 3 6
look 3 2 6
commit 3
commit 3
commit 3
show 2
show 3
",
    prints: "ok 0 1
ok
ok
ok 2
ok
ok
ok 0 1
ok 0 1 1
ok 0 1 2
ok 1
ok 2
ok 1
ok 1
ok 1
ok 1
ok
no 5
ok 0 2
card 2: electing
  epoch 0.1, new epoch 0.2, vote 0.2 with 0.1.2
  accepted 0.1.2, committed 0.0.0, next 0.1.0
  peer 1: nothing shipped; accept 0.0.0, vote 0.1 with 0.0.0, commit 0.0.0
  peer 3: nothing shipped; accept 0.0.0, vote 0.0 with 0.0.0, commit 0.0.0
  log: 2 of 16 places
    0.1.1 queue 4: book load 7 for carrier 42
    0.1.2 queue 4: book load 8 for carrier 43
  board: every load is open
ok 0 3
ok 1 3
card 3: electing
  epoch 0.0, new epoch 1.3, vote 1.3 with 0.0.0
  accepted 0.0.0, committed 0.0.0, next 0.0.0
  peer 1: nothing shipped; accept 0.0.0, vote 0.0 with 0.0.0, commit 0.0.0
  peer 2: nothing shipped; accept 0.0.0, vote 0.0 with 0.0.0, commit 0.0.0
  log: 0 of 16 places
  board: every load is open
ok
ok
ok 1
card 2: electing
  epoch 0.1, new epoch 2.2, vote 2.2 with 0.1.2
  accepted 0.1.2, committed 0.0.0, next 0.1.0
  peer 1: nothing shipped; accept 0.0.0, vote 0.1 with 0.0.0, commit 0.0.0
  peer 3: nothing shipped; accept 0.0.0, vote 1.3 with 0.0.0, commit 0.0.0
  log: 2 of 16 places
    0.1.1 queue 4: book load 7 for carrier 42
    0.1.2 queue 4: book load 8 for carrier 43
  board: every load is open
ok 0
no 7
ok 2 3
ok
ok
ok 1
card 2: electing
  epoch 0.1, new epoch 3.2, vote 3.2 with 0.1.2
  accepted 0.1.2, committed 0.0.0, next 0.1.0
  peer 1: nothing shipped; accept 0.0.0, vote 0.1 with 0.0.0, commit 0.0.0
  peer 3: nothing shipped; accept 0.0.0, vote 2.3 with 0.0.0, commit 0.0.0
  log: 2 of 16 places
    0.1.1 queue 4: book load 7 for carrier 42
    0.1.2 queue 4: book load 8 for carrier 43
  board: every load is open
no 7
ok
ok
ok 2
ok
ok
card 3: electing
  epoch 0.0, new epoch 3.2, vote 3.2 with 0.1.2
  accepted 0.0.0, committed 0.0.0, next 0.0.0
  peer 1: nothing shipped; accept 0.0.0, vote 0.0 with 0.0.0, commit 0.0.0
  peer 2: nothing shipped; accept 0.0.0, vote 3.2 with 0.1.2, commit 0.0.0
  log: 0 of 16 places
  board: every load is open
ok 3 2
no 7
card 2: leader
  epoch 3.2, new epoch 3.2, vote 3.2 with 0.1.2
  accepted 3.2.0, committed 0.0.0, next 3.2.0
  peer 1: nothing shipped; accept 0.0.0, vote 0.1 with 0.0.0, commit 0.0.0
  peer 3: nothing shipped; accept 0.0.0, vote 3.2 with 0.1.2, commit 0.0.0
  log: 2 of 16 places
    0.1.1 queue 4: book load 7 for carrier 42
    0.1.2 queue 4: book load 8 for carrier 43
  board: every load is open
ok 3
card 2: leader
  epoch 3.2, new epoch 3.2, vote 3.2 with 0.1.2
  accepted 3.2.0, committed 0.0.0, next 3.2.0
  peer 1: nothing shipped; accept 0.0.0, vote 0.1 with 0.0.0, commit 0.0.0
  peer 3: shipped the diff; accept 0.0.0, vote 3.2 with 0.1.2, commit 0.0.0
  log: 2 of 16 places
    0.1.1 queue 4: book load 7 for carrier 42
    0.1.2 queue 4: book load 8 for carrier 43
  board: every load is open
ok 2
card 3: follower
  epoch 3.2, new epoch 3.2, vote 3.2 with 0.1.2
  accepted 3.2.0, committed 0.0.0, next 3.2.0
  peer 1: nothing shipped; accept 0.0.0, vote 0.0 with 0.0.0, commit 0.0.0
  peer 2: nothing shipped; accept 0.0.0, vote 3.2 with 0.1.2, commit 0.0.0
  log: 2 of 16 places
    0.1.1 queue 4: book load 7 for carrier 42
    0.1.2 queue 4: book load 8 for carrier 43
  board: every load is open
ok
ok
ok 2
ok 3 2 1
ok 1
ok 1
ok
ok
ok 1
no 6
ok
ok
ok 2
ok 1
no 6
card 2: leader
  epoch 3.2, new epoch 3.2, vote 3.2 with 0.1.2
  accepted 3.2.1, committed 3.2.1, next 3.2.2
  peer 1: nothing shipped; accept 0.0.0, vote 0.1 with 0.0.0, commit 0.0.0
  peer 3: shipped up to 1; accept 3.2.1, vote 3.2 with 0.1.2, commit 0.0.0
  log: 3 of 16 places
    0.1.1 queue 4: book load 7 for carrier 42
    0.1.2 queue 4: book load 8 for carrier 43
    3.2.1 queue 4: release load 7 by carrier 42
  board: load 8 held by carrier 43
card 3: follower
  epoch 3.2, new epoch 3.2, vote 3.2 with 0.1.2
  accepted 3.2.1, committed 3.2.1, next 3.2.2
  peer 1: nothing shipped; accept 0.0.0, vote 0.0 with 0.0.0, commit 0.0.0
  peer 2: nothing shipped; accept 0.0.0, vote 3.2 with 0.1.2, commit 3.2.1
  log: 3 of 16 places
    0.1.1 queue 4: book load 7 for carrier 42
    0.1.2 queue 4: book load 8 for carrier 43
    3.2.1 queue 4: release load 7 by carrier 42
  board: load 8 held by carrier 43
card 1
card 2 0.1.1 0.1.2 3.2.1
card 3 0.1.1 0.1.2 3.2.1
",
};
