use crate::scripts::Stored;

pub(crate) const SCRIPT: Stored = Stored {
    rack: "machine=board",
    lines: "timeout 1
push 1 2 5
look 2 1 5
elect 2
push 2 1 5
look 1 2 5
win 1
submit 1 4 7 1 42
submit 1 4 8 1 43
submit 1 4 7 2 42
ship 1 2
take 2 1
ship 1 2
take 2 1
ship 1 2
take 2 1
ship 1 2
take 2 1
push 2 1 4
look 1 2 4
commit 1
commit 1
push 1 2 6
look 2 1 6
commit 2
commit 2
push 2 1 6
look 1 2 6
timeout 1
elect 2
timeout 2
push 1 2 5
look 2 1 5
elect 2
push 2 1 5
look 1 2 5
win 1
show 1
commit 1
submit 1 4 7 1 44
commit 1
push 1 2 6
ship 1 2
take 2 1
show 2
commit 2
commit 1
push 2 1 4
look 1 2 4
commit 1
push 1 2 6
commit 1
ship 1 2
take 2 1
push 2 1 4
look 1 2 4
commit 1
push 1 2 6
look 2 1 6
commit 2
commit 2
commit 2
submit 1 4 9 1 45
submit 1 4 10 1 46
ship 1 2
ship 1 2
ship 1 3
timeout 2
push 2 3 5
look 3 2 5
elect 3
push 3 2 5
look 2 3 5
take 3 1
show 3
take 3 1
show 2
take 2 1
show 2
take 2 1
take 2 1
win 2
ship 2 3
take 3 2
push 3 1 4
look 1 3 4
push 2 1 4
look 1 2 4
show 1
commit 1
commit 3
ship 2 1
take 1 2
show 1
ship 1 2
commit 1
commit 2
push 3 2 4
look 2 3 4
commit 2
commit 2
timeout 1
timeout 1
timeout 3
push 1 3 5
look 3 1 5
elect 3
push 3 1 5
look 1 3 5
win 1
show 1
",
    prints: "ok 0 1
ok
ok
ok 2
ok
ok
ok 0 1
ok 0 1 1
ok 0 1 2
ok 0 1 3
ok 1
ok 2
ok 1
ok 1
ok 1
ok 1
ok 1
ok 1
ok
ok
ok 0
ok 1
ok
ok
ok 0
ok 1
ok
ok
ok 1 1
no 5
ok 0 2
ok
ok
ok 2
ok
ok
ok 1 1
card 1: leader
  epoch 1.1, new epoch 1.1, vote 1.1 with 0.1.3
  accepted 1.1.0, committed 0.1.1, next 1.1.0
  peer 2: nothing shipped; accept 0.1.3, vote 1.1 with 0.1.3, commit 0.1.1
  peer 3: nothing shipped; accept 0.0.0, vote 0.0 with 0.0.0, commit 0.0.0
  log: 3 of 16 places
    0.1.1 queue 4: book load 7 for carrier 42
    0.1.2 queue 4: book load 8 for carrier 43
    0.1.3 queue 4: release load 7 by carrier 42
  board: load 7 held by carrier 42
no 6
ok 1 1 1
no 6
no 6
ok 3
ok 2
card 2: follower
  epoch 1.1, new epoch 1.1, vote 1.1 with 0.1.3
  accepted 1.1.0, committed 0.1.1, next 1.1.0
  peer 1: nothing shipped; accept 0.0.0, vote 1.1 with 0.1.3, commit 0.1.1
  peer 3: nothing shipped; accept 0.0.0, vote 0.0 with 0.0.0, commit 0.0.0
  log: 3 of 16 places
    0.1.1 queue 4: book load 7 for carrier 42
    0.1.2 queue 4: book load 8 for carrier 43
    0.1.3 queue 4: release load 7 by carrier 42
  board: load 7 held by carrier 42
no 6
no 6
ok
ok
ok 2
no 6
no 6
ok 1
ok 1
ok
ok
ok 1
ok
ok
ok 2
ok 1
no 6
ok 1 1 2
ok 1 1 3
ok 1
ok 1
ok 4
ok 1 2
ok
ok
ok 2
ok
ok
ok 0
card 3: electing
  epoch 0.0, new epoch 1.2, vote 1.2 with 1.1.1
  accepted 0.0.0, committed 0.0.0, next 0.0.0
  peer 1: nothing shipped; accept 0.0.0, vote 0.0 with 0.0.0, commit 0.0.0
  peer 2: nothing shipped; accept 0.0.0, vote 1.2 with 1.1.1, commit 0.0.0
  log: 0 of 16 places
  board: every load is open
no 6
card 2: electing
  epoch 1.1, new epoch 1.2, vote 1.2 with 1.1.1
  accepted 1.1.1, committed 1.1.1, next 1.1.2
  peer 1: nothing shipped; accept 0.0.0, vote 1.1 with 0.1.3, commit 1.1.1
  peer 3: nothing shipped; accept 0.0.0, vote 1.2 with 1.1.1, commit 0.0.0
  log: 4 of 16 places
    0.1.1 queue 4: book load 7 for carrier 42
    0.1.2 queue 4: book load 8 for carrier 43
    0.1.3 queue 4: release load 7 by carrier 42
    1.1.1 queue 4: book load 7 for carrier 44
  board: load 7 held by carrier 44 load 8 held by carrier 43
ok 0
card 2: electing
  epoch 1.1, new epoch 1.2, vote 1.2 with 1.1.1
  accepted 1.1.1, committed 1.1.1, next 1.1.2
  peer 1: nothing shipped; accept 0.0.0, vote 1.1 with 0.1.3, commit 1.1.1
  peer 3: nothing shipped; accept 0.0.0, vote 1.2 with 1.1.1, commit 0.0.0
  log: 4 of 16 places
    0.1.1 queue 4: book load 7 for carrier 42
    0.1.2 queue 4: book load 8 for carrier 43
    0.1.3 queue 4: release load 7 by carrier 42
    1.1.1 queue 4: book load 7 for carrier 44
  board: load 7 held by carrier 44 load 8 held by carrier 43
ok 0
no 6
ok 1 2
ok 5
ok 2
ok
ok
ok
ok
card 1: leader
  epoch 1.1, new epoch 1.1, vote 1.1 with 0.1.3
  accepted 1.1.3, committed 1.1.1, next 1.1.2
  peer 2: shipped up to 3; accept 1.2.0, vote 1.1 with 0.1.3, commit 0.1.1
  peer 3: shipped the diff; accept 1.2.0, vote 0.0 with 0.0.0, commit 0.0.0
  log: 6 of 16 places
    0.1.1 queue 4: book load 7 for carrier 42
    0.1.2 queue 4: book load 8 for carrier 43
    0.1.3 queue 4: release load 7 by carrier 42
    1.1.1 queue 4: book load 7 for carrier 44
    1.1.2 queue 4: book load 9 for carrier 45
    1.1.3 queue 4: book load 10 for carrier 46
  board: load 7 held by carrier 44 load 8 held by carrier 43
no 6
no 6
ok 1
ok 2
card 1: follower
  epoch 1.2, new epoch 1.2, vote 1.1 with 0.1.3
  accepted 1.2.0, committed 1.1.1, next 1.2.0
  peer 2: shipped up to 3; accept 1.2.0, vote 1.1 with 0.1.3, commit 0.1.1
  peer 3: shipped the diff; accept 1.2.0, vote 0.0 with 0.0.0, commit 0.0.0
  log: 4 of 16 places
    0.1.1 queue 4: book load 7 for carrier 42
    0.1.2 queue 4: book load 8 for carrier 43
    0.1.3 queue 4: release load 7 by carrier 42
    1.1.1 queue 4: book load 7 for carrier 44
  board: load 7 held by carrier 44 load 8 held by carrier 43
no 5
no 6
no 6
ok
ok
ok 0
no 6
ok 2 1
ok 3 1
ok 1 3
ok
ok
ok 2
ok
ok
ok 3 1
card 1: leader
  epoch 3.1, new epoch 3.1, vote 3.1 with 1.2.0
  accepted 3.1.0, committed 1.1.1, next 3.1.0
  peer 2: nothing shipped; accept 1.2.0, vote 1.1 with 0.1.3, commit 0.1.1
  peer 3: nothing shipped; accept 1.2.0, vote 3.1 with 1.2.0, commit 0.0.0
  log: 4 of 16 places
    0.1.1 queue 4: book load 7 for carrier 42
    0.1.2 queue 4: book load 8 for carrier 43
    0.1.3 queue 4: release load 7 by carrier 42
    1.1.1 queue 4: book load 7 for carrier 44
  board: load 7 held by carrier 44 load 8 held by carrier 43
card 1 0.1.1 0.1.2 0.1.3 1.1.1
card 2 0.1.1 0.1.2 0.1.3 1.1.1
card 3
",
};
