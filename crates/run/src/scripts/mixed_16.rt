use crate::scripts::Stored;

pub(crate) const SCRIPT: Stored = Stored {
    rack: "backplane=box machine=board",
    lines: "commit 1
commit 2
win 1
elect 3
ship 3 3
take 3 3
ship 3 3
push 2 1 6
commit 3
take 1 2
take 1 3
ship 1 0
look 1 2 6
ship 1 1
ship 1 3
submit 2 0 7 1 43
take 1 3
ship 1 2
ship 1 3
look 3 3 6
look 2 3 4
commit 2
look 2 3 6
ship 3 3
take 2 2
look 3 3 6
timeout 1
ship 3 1
ship 3 3
push 3 1 4
look 1 3 4
look 3 2 4
take 3 3
push 2 2 6
take 3 2
elect 1
push 2 3 6
ship 1 2
look 3 2 6
win 1
submit 2 8 7 1 43
elect 1
push 3 3 5
win 3
push 3 1 5
timeout 2
ship 1 2
commit 3
look 1 3 5
ship 3 3
commit 3
push 3 1 6
push 1 1 5
take 3 1
take 4 1
submit 1 4 7 1 43
push 1 3 6
elect 2
take 3 2
timeout 1
look 3 1 6
ship 2 3
take 1 3
look 1 3 6
commit 1
take 1 2
take 1 2
look 2 3 5
commit 3
elect 3
push 2 3 6
push 2 1 4
take 3 2
look 3 1 5
look 3 1 4
take 2 2
look 3 2 6
elect 3
ship 1 2
commit 2
win 3
commit 2
look 1 2 4
submit 2 6 7 1 43
take 2 2
elect 3
submit 2 3 7 1 43
commit 2
take 2 1
ship 1 1
commit 3
commit 2
commit 2
submit 3 5 7 1 42
ship 2 2
take 3 2
look 1 1 5
elect 3
look 1 2 6
take 1 1
look 3 3 5
take 2 1
take 1 1
push 1 3 6
win 3
push 2 1 5
elect 1
push 2 3 5
push 3 1 5
ship 3 1
commit 1
push 2 2 4
push 3 2 4
elect 3
look 2 3 4
look 3 1 6
timeout 3
take 3 1
elect 2
commit 3
commit 1
elect 1
look 1 2 5
take 3 1
look 3 2 5
push 2 3 6
look 1 2 5
look 3 2 6
push 3 3 5
win 3
push 1 1 5
commit 3
look 1 3 5
win 3
look 1 1 6
look 1 2 6
commit 2
commit 1
win 3
take 3 2
ship 3 3
timeout 3
look 3 2 5
look 2 1 5
commit 2
elect 1
submit 2 7 0 0 1
elect 3
look 1 3 6
commit 3
look 1 3 4
look 3 2 5
ship 3 2
commit 1
commit 1
push 3 1 6
ship 3 3
look 1 3 6
show 3
push 1 2 6
commit 2
push 1 2 5
submit 2 4 7 1 43
submit 2 0 7 1 43
commit 2
look 2 1 5
look 2 1 6
ship 3 2
look 2 3 6
look 3 3 5
look 1 2 4
push 2 2 5
look 2 2 5
submit 3 5 7 1 42
win 1
look 2 1 5
take 3 1
look 2 1 5
push 3 3 5
look 2 1 5
push 1 3 4
look 3 1 4
commit 3
take 2 3
submit 1 12 7 1 42
submit 3 2 7 2 42
elect 3
submit 1 9 0 1 0
commit 2
take 2 1
take 1 3
push 2 3 4
take 3 3
ship 1 2
submit 3 7 7 1 42
push 2 1 6
commit 1
ship 3 3
push 2 3 5
look 3 2 4
elect 3
look 3 2 5
elect 3
take 2 3
push 2 1 5
push 1 2 5
ship 3 1
elect 2
elect 3
push 3 2 5
look 2 3 5
look 2 1 5
submit 1 7 7 2 42
look 1 2 6
elect 3
elect 3
push 1 3 6
push 2 3 5
push 1 3 4
push 1 1 6
commit 1
ship 3 2
elect 2
look 3 3 4
look 3 1 4
win 2
commit 2
commit 1
push 2 3 6
take 3 1
elect 3
take 1 1
ship 1 3
commit 2
look 3 2 6
push 1 2 5
commit 2
look 1 2 5
submit 1 15 0 99999999999999999999 1
submit 2 3 7 2 42
take 3 3
push 2 2 6
look 2 1 5
commit 1
take 2 1
push 3 2 5
ship 2 3
take 1 1
push 2 2 4
elect 1
win 1
look 3 1 6
take 1 2
ship 2 2
win 1
commit 3
submit 1 15 7 1 42
submit 3 3 7 1 43
ship 1 2
push 1 2 5
ship 2 1
push 1 1 6
submit 4 11 7 2 42
elect 3
commit 1
push 2 4 5
timeout 1
commit 2
take 2 2
ship 2 1
elect 1
elect 1
push 3 3 5
commit 2
commit 1
timeout 1
push 2 1 6
submit 3 4 7 1 43
submit 2 13 7 2 42
push 2 1 5
commit 2
look 1 2 5
ship 2 2
stop 2
push 3 1 5
commit 1
push 3 1 5
look 1 2 6
push 1 1 5
elect 3
elect 3
ship 2 1
take 2 2
push 1 2 4
show 1
ship 2 2
submit 2 12 7 2 42
push 3 2 4
take 2 3
commit 3
ship 2 2
submit 3 16 7 1 42
take 1 3
elect 3
submit 1 5 7 1 42
take 3 2
push 3 1 5
submit 3 15 7 1 43
look 2 1 4
commit 1
submit 2 16 7 2 42
push 3 2 5
push 2 1 5
win 1
commit 1
push 2 3 4
look 3 2 5
push 3 1 5
submit 2 16 7 2 42
commit 2
take 1 2
win 1
win 1
push 3 2 4
ship 2 1
ship 3 3
submit 1 1 7 1 42
look 2 1 5
submit 2 4 0 1 65536
commit 2
push 1 3 6
take 1 3
win 3
ship 2 2
take 1 2
take 1 2
commit 1
look 2 3 5
push 1 3 4
submit 3 6 7 2 42
look 3 1 4
submit 2 3 7 1 42
take 3 2
take 2 2
commit 2
ship 1 2
win 1
commit 2
submit 2 8 7 2 42
ship 3 2
elect 1
look 2 3 4
look 2 1 4
ship 2 1
push 2 1 4
commit 3
ship 3 2
commit 2
commit 1
take 1 1
take 1 1
take 3 2
submit 3 2 7 1 43
ship 1 2
ship 3 2
submit 1 9 64 1 1
submit 1 7 0 1 65536
commit 1
push 3 3 5
commit 1
look 2 1 4
push 3 3 5
look 2 3 4
win 1
look 2 3 4
commit 1
elect 1
submit 1 11 7 1 42
ship 1 1
look 2 3 5
look 3 1 6
submit 2 7 7 2 42
submit 2 13 7 1 43
commit 2
elect 2
commit 2
submit 2 2 7 2 42
win 1
win 1
take 1 1
push 1 1 5
take 1 3
look 1 3 5
push 2 2 4
commit 3
commit 3
look 1 2 4
take 1 2
commit 1
submit 1 9 7 1 43
commit 2
submit 2 0 7 1 43
look 2 1 4
push 3 1 4
submit 1 8 7 1 42
show 1
take 3 3
ship 2 2
commit 3
commit 1
submit 1 6 64 1 1
commit 2
look 2 1 5
look 1 3 4
ship 3 3
take 3 3
look 2 1 5
ship 3 1
push 1 2 5
submit 0 3 7 1 43
take 1 3
timeout 1
timeout 3
submit 3 7 7 1 43
push 2 3 5
timeout 3
look 2 3 5
ship 3 3
look 2 3 5
ship 1 1
show 1
look 2 3 4
commit 3
push 3 1 4
push 2 2 6
take 2 3
take 1 1
look 1 3 4
submit 1 9 7 1 43
look 2 2 6
submit 1 16 7 1 42
submit 2 12 7 2 42
commit 2
look 1 3 5
ship 2 3
submit 2 4 7 2 42
submit 0 14 7 2 42
push 1 2 5
look 2 1 4
take 3 2
submit 1 15 7 1 43
elect 2
take 3 2
ship 1 1
elect 1
take 1 2
take 2 1
look 1 3 5
commit 3
submit 3 6 7 1 42
look 2 3 4
win 3
look 2 1 5
push 2 2 6
elect 1
look 1 3 5
elect 3
ship 1 2
look 2 3 4
commit 2
push 3 4 6
ship 2 1
commit 3
submit 3 14 7 1 43
push 2 2 5
ship 1 1
push 2 3 6
take 3 2
ship 3 3
elect 2
commit 1
take 1 3
ship 1 2
commit 1
submit 1 6 -1 1 1
submit 2 4 7 1 42
push 1 2 4
look 2 3 5
push 3 2 5
elect 2
push 3 1 4
push 3 2 6
commit 1
take 2 1
look 2 3 5
commit 3
look 2 1 5
push 1 1 6
push 2 2 5
ship 1 1
",
    prints: "no 5
no 5
no 7
ok 0
no 1
no 1
no 1
ok
no 5
no 6
no 6
no 1
ok
no 1
no 5
no 5
no 6
no 5
no 5
no 1
no 6
no 5
no 6
no 1
no 1
no 1
ok 0 1
no 5
no 1
ok
ok
no 6
no 1
no 1
no 6
ok 0
ok
no 5
ok
no 7
no 5
ok 0
no 1
no 7
ok
ok 0 2
no 5
no 5
ok
no 1
no 5
ok
no 1
no 6
no 1
no 5
ok
ok 0
no 6
ok 1 1
ok
no 5
no 6
ok
no 5
no 6
no 6
no 6
no 5
ok 0
ok
ok
no 6
no 6
no 6
no 1
ok
ok 0
no 5
no 5
no 7
no 5
ok
no 5
no 1
ok 0
no 5
no 5
no 6
no 1
no 5
no 5
no 5
no 5
no 1
no 6
no 1
ok 0
no 6
no 1
no 1
no 6
no 1
ok
no 7
ok
ok 0
ok
ok
no 5
no 5
no 1
ok
ok 0
ok
ok
ok 0 3
no 6
ok 0
no 5
no 5
ok 0
ok
no 6
ok
ok
no 6
ok
no 1
no 7
no 1
no 5
ok
no 7
no 1
no 6
no 5
no 5
no 7
no 6
no 1
ok 1 3
no 6
no 6
no 5
ok 0
no 3
ok 0
no 6
no 5
no 6
no 6
no 5
no 5
no 5
ok
no 1
ok
card 3: electing
  epoch 0.0, new epoch 1.3, vote 1.3 with 0.0.0
  accepted 0.0.0, committed 0.0.0, next 0.0.0
  peer 1: nothing shipped; accept 0.0.0, vote 0.0 with 0.0.0, commit 0.0.0
  peer 2: nothing shipped; accept 0.0.0, vote 0.2 with 0.0.0, commit 0.0.0
  log: 0 of 16 places
  board: every load is open
ok
no 5
ok
no 5
no 5
no 5
ok
ok
no 5
no 6
no 1
no 6
no 1
no 1
no 5
no 7
no 6
no 6
no 6
no 1
no 6
ok
ok
no 5
no 6
no 5
no 5
ok 0
no 3
no 5
no 6
no 6
ok
no 1
no 5
no 5
ok
no 5
no 1
ok
ok
ok 0
ok
ok 0
no 6
ok
ok
no 5
ok 2
ok 0
ok
ok
ok
no 5
ok
ok 0
ok 0
ok
ok
ok
no 1
no 5
no 5
ok 2
no 1
ok
no 7
no 5
no 5
ok
no 6
ok 0
no 1
no 5
no 5
ok
ok
no 5
ok
no 3
no 5
no 1
no 1
ok
no 5
no 6
ok
no 5
no 1
no 1
ok 0
no 7
ok
no 6
no 1
no 7
no 5
no 5
no 5
no 5
ok
no 5
no 1
no 1
ok 0
no 5
no 1
ok 2 1
no 5
no 1
no 5
ok 0
ok 0
no 1
no 5
no 5
ok 3 1
ok
no 5
no 5
ok
no 5
ok
no 1
ok
ok
no 5
ok
ok
no 1
ok 0
ok 0
no 4
no 1
ok
card 1: electing
  epoch 0.0, new epoch 3.1, vote 3.1 with 0.0.0
  accepted 0.0.0, committed 0.0.0, next 0.0.0
  peer 2: nothing shipped; accept 0.0.0, vote 1.3 with 0.0.0, commit 0.0.0
  peer 3: nothing shipped; accept 0.0.0, vote 0.0 with 0.0.0, commit 0.0.0
  log: 0 of 16 places
  board: every load is open
no 1
no 4
ok
no 4
no 5
no 1
no 3
no 6
ok 0
no 5
no 6
ok
no 5
no 4
no 5
no 3
ok
no 4
no 7
no 5
no 4
ok
ok
no 3
no 4
no 6
no 7
no 7
ok
no 4
no 1
no 5
no 4
no 3
no 4
ok
no 6
no 7
no 1
no 6
no 6
no 5
no 4
ok
no 5
ok
no 4
no 6
no 1
no 4
no 5
no 7
no 4
no 4
no 5
ok 0
no 4
no 4
no 4
no 4
no 5
no 5
no 4
no 5
no 1
no 1
no 6
no 5
no 5
no 5
no 3
no 3
no 5
no 1
no 5
no 4
no 1
no 4
no 7
no 4
no 5
ok 0
no 5
no 1
no 4
ok
no 4
no 4
no 4
no 4
no 4
no 4
no 7
no 7
no 1
no 1
no 6
ok
no 1
no 5
no 5
no 6
no 6
no 5
no 5
no 4
no 4
no 4
ok
no 5
card 1: electing
  epoch 0.0, new epoch 3.1, vote 3.1 with 0.0.0
  accepted 0.0.0, committed 0.0.0, next 0.0.0
  peer 2: nothing shipped; accept 0.0.0, vote 1.3 with 0.0.0, commit 0.0.0
  peer 3: nothing shipped; accept 0.0.0, vote 1.3 with 0.0.0, commit 0.0.0
  log: 0 of 16 places
  board: every load is open
no 1
no 1
no 5
no 5
no 3
no 4
no 4
ok
no 1
no 1
no 4
no 5
ok
no 1
no 6
ok 4 1
ok 2 3
no 5
no 4
ok 3 3
no 4
no 1
no 4
no 1
card 1: electing
  epoch 0.0, new epoch 4.1, vote 4.1 with 0.0.0
  accepted 0.0.0, committed 0.0.0, next 0.0.0
  peer 2: nothing shipped; accept 0.0.0, vote 1.3 with 0.0.0, commit 0.0.0
  peer 3: nothing shipped; accept 0.0.0, vote 1.3 with 0.0.0, commit 0.0.0
  log: 0 of 16 places
  board: every load is open
no 4
no 5
ok
no 1
no 4
no 1
ok
no 5
no 1
no 3
no 4
no 4
ok
no 4
no 4
no 1
ok
no 4
no 6
no 5
no 4
no 6
no 1
ok 0
no 6
no 4
ok
no 5
no 5
no 4
no 7
no 4
no 1
ok 0
ok
ok 0
no 5
no 4
no 4
no 1
no 4
no 5
no 5
no 1
no 1
no 4
no 6
no 1
no 4
no 5
no 6
no 5
no 5
no 3
no 4
ok
no 4
ok
no 4
ok
ok
no 5
no 4
no 4
no 5
no 4
no 1
no 1
no 1
card 1
card 2
card 3
",
};
