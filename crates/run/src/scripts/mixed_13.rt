use crate::scripts::Stored;

pub(crate) const SCRIPT: Stored = Stored {
    rack: "cards=5 machine=board",
    lines: "submit 2 3 7 1 42
win 1
ship 2 2
submit 4 8 7 1 43
commit 2
push 5 2 6
submit 4 7 7 1 42
look 2 5 6
push 4 1 5
push 4 5 6
ship 5 2
elect 1
commit 5
take 5 4
win 1
take 4 5
commit 4
elect 2
submit 1 15 7 1 43
take 5 5
commit 1
push 1 4 4
take 1 3
commit 1
submit 1 14 7 2 42
elect 1
commit 1
timeout 4
look 5 4 6
elect 2
take 5 2
push 4 3 4
elect 4
take 1 3
push 2 5 4
commit 1
take 3 4
submit 3 2 7 1 42
win 1
take 5 1
push 5 1 4
commit 4
ship 3 3
commit 5
push 4 2 5
push 2 4 4
submit 4 11 7 1 43
timeout 4
submit 3 8 7 1 43
ship 2 2
elect 3
take 1 5
take 1 3
look 2 4 5
commit 2
ship 5 4
look 3 4 4
look 1 5 4
ship 1 5
look 5 2 4
commit 3
commit 5
commit 1
push 2 3 4
show 4
push 4 5 4
ship 5 2
look 4 1 4
look 4 2 4
submit 2 16 7 1 43
commit 5
push 1 1 6
take 4 1
ship 2 4
commit 3
ship 4 5
elect 4
submit 5 12 7 1 42
win 2
elect 5
look 3 2 4
look 5 4 4
commit 4
push 4 3 6
ship 2 2
look 3 4 6
push 5 4 5
take 4 1
look 6 3 5
win 2
take 5 1
take 4 5
win 4
ship 1 2
elect 5
timeout 5
push 1 4 4
ship 1 2
look 4 1 4
look 4 5 5
look 1 4 5
submit 1 6 7 2 42
ship 5 3
look 5 5 5
push 2 4 5
look 4 2 5
submit 3 14 7 2 42
commit 1
commit 5
look 2 1 5
push 5 2 4
ship 2 1
take 2 4
look 2 5 4
ship 1 2
elect 1
elect 4
ship 3 1
ship 1 3
win 1
push 3 2 6
look 4 5 4
timeout 1
look 2 3 6
stop 1
ship 5 4
take 2 5
look 4 1 4
submit 2 12 7 2 42
take 4 5
win 5
submit 2 10 7 1 42
submit 3 3 7 1 43
take 4 4
elect 2
take 5 5
look 5 2 6
take 1 5
win 3
take 3 3
submit 5 3 7 2 42
ship 1 4
submit 1 16 7 2 42
look 5 5 6
submit 5 12 7 1 42
take 1 5
submit 2 10 7 2 42
win 3
take 2 3
elect 2
commit 5
commit 5
push 4 1 5
look 1 4 5
submit 1 10 7 1 43
look 1 4 5
win 4
ship 2 1
elect 3
commit 5
look 1 4 5
take 0 3
take 3 4
push 3 4 6
commit 2
take 3 4
ship 5 2
commit 2
submit 3 15 7 2 42
look 3 5 5
ship 3 6
elect 1
push 6 2 6
push 5 3 6
commit 4
look 4 3 6
commit 4
commit 4
elect 5
elect 4
push 5 5 6
push 3 1 4
submit 3 14 7 1 43
commit 3
ship 5 4
look 3 5 6
ship 2 2
ship 1 4
take 2 5
take 5 5
look 1 4 5
look 1 4 5
ship 5 4
look 1 4 5
commit 5
push 1 5 6
submit 6 0 7 2 42
look 1 4 5
win 4
submit 2 15 7 1 42
look 3 3 6
ship 3 1
commit 2
commit 2
push 4 5 6
commit 4
commit 2
ship 4 5
push 1 1 5
look 1 3 4
look 1 3 4
commit 1
ship 4 1
commit 1
look 1 3 4
push 2 5 6
commit 1
look 5 2 6
timeout 3
submit 1 9 7 1 42
take 3 2
commit 4
win 5
elect 3
submit 4 3 7 1 42
take 1 4
push 3 2 6
ship 4 1
show 1
elect 2
win 5
look 1 4 5
look 5 4 6
elect 4
elect 1
look 1 4 5
win 2
ship 5 1
take 3 3
commit 3
submit 5 11 7 2 42
take 4 3
take 4 4
commit 4
win 2
ship 1 1
submit 2 3 7 1 42
push 2 1 6
ship 3 2
ship 4 4
look 1 4 5
push 4 3 4
push 5 1 4
commit 4
push 6 5 6
look 1 3 4
push 5 5 6
win 2
push 2 1 4
push 2 4 6
push 5 5 5
push 2 1 6
push 6 5 4
look 1 4 5
push 3 4 5
win 1
push 5 5 6
push 3 1 4
look 3 4 4
look 4 3 5
commit 1
look 1 5 4
look 4 2 4
look 1 4 5
push 5 2 5
commit 3
show 4
look 2 3 6
take 3 4
commit 1
submit 5 11 7 1 42
submit 2 6 7 2 42
elect 4
ship 5 3
submit 2 15 7 1 43
ship 1 5
push 5 3 4
ship 5 5
submit 1 8 7 1 43
ship 4 4
commit 1
ship 5 2
ship 1 2
submit 1 3 7 1 43
take 5 4
look 1 2 4
commit 2
push 5 2 6
look 2 5 5
ship 3 3
take 5 1
ship 5 2
look 1 5 4
look 1 5 4
push 5 2 6
push 5 4 5
commit 2
submit 1 16 7 2 42
commit 5
commit 3
look 4 5 5
timeout 1
commit 4
ship 1 2
stop 0
submit 5 3 7 1 42
submit 2 0 7 1 43
ship 2 5
look 3 5 4
commit 1
push 5 5 5
timeout 5
commit 2
submit 2 12 7 2 42
commit 1
win 1
win 2
look 1 2 6
commit 5
submit 4 4 64 1 1
push 2 4 6
take 1 2
commit 5
look 4 2 6
submit 4 6 7 2 42
ship 3 4
push 5 3 6
commit 2
timeout 5
timeout 2
commit 3
win 3
take 5 3
commit 4
ship 5 5
commit 5
look 1 2 6
push 4 1 5
commit 4
look 1 2 4
elect 2
push 4 4 5
ship 3 5
ship 1 1
take 3 1
ship 1 4
take 2 2
look 4 2 6
elect 1
look 2 4 4
take 3 3
look 1 3 4
ship 2 4
look 1 4 5
look 1 5 4
ship 3 1
ship 3 2
submit 2 14 7 1 43
ship 3 2
take 5 4
take 4 2
push 3 4 5
look 2 5 6
timeout 3
ship 5 5
submit 4 5 0 1 0
push 4 1 5
look 1 3 4
submit 1 11 7 1 43
win 5
commit 5
win 3
commit 2
take 2 5
ship 2 3
commit 4
push 4 2 6
commit 4
push 1 1 5
ship 3 1
look 4 3 5
win 4
ship 5 1
push 1 1 6
ship 2 5
take 2 4
commit 3
take 5 3
take 2 1
push 2 5 6
push 4 4 4
elect 2
elect 3
push 4 4 6
commit 2
win 3
ship 5 1
submit 6 16 7 1 42
push 2 2 4
push 2 2 6
take 5 5
push 2 5 6
look 1 4 5
look 3 5 6
take 0 2
take 1 1
ship 6 6
ship 3 1
submit 4 3 7 1 43
submit 1 3 7 1 43
take 4 3
take 4 3
elect 5
submit 5 4 7 1 42
ship 2 4
submit 1 4 0 1 0
win 1
submit 3 8 7 1 43
push 2 3 4
timeout 3
submit 2 4 7 1 43
commit 3
submit 3 7 7 1 42
submit 5 8 7 1 43
ship 2 2
ship 5 4
take 4 3
ship 0 3
take 2 2
win 0
commit 5
ship 3 2
commit 2
take 2 5
commit 4
take 2 2
win 4
take 4 3
push 3 4 6
push 1 1 5
look 4 3 6
ship 1 2
ship 0 4
look 1 2 6
push 4 2 5
commit 5
commit 2
commit 1
push 4 2 4
push 2 1 6
submit 1 7 7 1 43
elect 5
push 6 5 5
ship 4 5
look 3 2 4
ship 1 4
submit 1 10 7 1 43
take 3 3
take 4 3
take 1 3
push 4 4 4
look 2 4 6
submit 5 10 0 1 0
push 4 3 6
push 3 3 6
take 1 2
look 5 3 5
take 2 5
timeout 1
push 1 2 4
submit 4 1 7 1 43
commit 4
push 4 3 5
ship 4 4
commit 5
push 4 3 5
ship 1 2
take 3 2
submit 2 5 7 2 42
submit 2 11 7 1 43
elect 5
commit 4
push 1 3 4
timeout 4
push 5 1 6
take 4 5
submit 2 5 7 2 42
elect 4
take 3 2
submit 1 11 7 1 43
",
    prints: "no 5
no 7
no 1
no 5
no 5
ok
no 5
ok
ok
ok
no 5
ok 0
no 5
no 6
no 7
no 6
no 5
ok 0
no 5
no 1
no 5
ok
no 6
no 5
no 5
ok 0
no 5
ok 0 4
ok
ok 0
no 6
ok
ok 0
no 6
ok
no 5
no 6
no 5
no 7
no 6
ok
no 5
no 1
no 5
ok
ok
no 5
ok 1 4
no 5
no 1
ok 0
no 6
no 6
ok
no 5
no 5
ok
ok
no 5
ok
no 5
no 5
no 5
ok
card 4: electing
  epoch 0.0, new epoch 1.4, vote 1.4 with 0.0.0
  accepted 0.0.0, committed 0.0.0, next 0.0.0
  peer 1: nothing shipped; accept 0.0.0, vote 0.0 with 0.0.0, commit 0.0.0
  peer 2: nothing shipped; accept 0.0.0, vote 0.0 with 0.0.0, commit 0.0.0
  peer 3: nothing shipped; accept 0.0.0, vote 0.0 with 0.0.0, commit 0.0.0
  peer 5: nothing shipped; accept 0.0.0, vote 0.0 with 0.0.0, commit 0.0.0
  log: 0 of 16 places
  board: every load is open
ok
no 5
ok
ok
no 3
no 5
no 1
no 6
no 5
no 5
no 5
ok 0
no 5
no 7
ok 0
ok
ok
no 5
ok
no 1
ok
ok
no 6
no 1
no 7
no 6
no 6
no 7
no 5
ok 0
ok 0 5
ok
no 5
ok
ok
ok
no 5
no 5
no 1
ok
ok
no 5
no 5
no 5
no 6
ok
no 5
no 6
ok
no 5
ok 0
ok 0
no 5
no 5
no 7
ok
no 6
ok 0 1
ok
ok
no 5
no 6
no 6
no 5
no 6
no 7
no 5
no 5
no 1
ok 2
no 1
no 6
no 4
no 7
no 1
no 5
no 4
no 3
no 1
no 5
no 4
no 5
no 7
no 6
ok 0
no 5
no 5
ok
no 4
no 4
no 4
no 7
no 5
ok 0
no 5
no 4
no 1
no 6
ok
no 5
no 6
no 5
no 5
no 5
no 6
no 1
no 4
no 1
ok
no 5
ok
no 5
no 5
ok 0
ok 0
no 1
ok
no 5
no 5
no 5
ok
no 1
no 4
no 6
no 1
no 4
no 4
no 5
no 4
no 5
no 4
no 1
no 4
no 7
no 5
no 1
no 5
no 5
no 5
ok
no 5
no 5
no 5
no 1
no 4
no 4
no 4
no 5
no 4
no 4
ok
no 4
ok
ok 0 3
no 4
no 6
no 5
no 7
ok 0
no 5
no 4
ok
no 5
card 1: electing, stopped
  epoch 0.0, new epoch 0.1, vote 0.1 with 0.0.0
  accepted 0.0.0, committed 0.0.0, next 0.0.0
  peer 2: nothing shipped; accept 0.0.0, vote 0.0 with 0.0.0, commit 0.0.0
  peer 3: nothing shipped; accept 0.0.0, vote 0.0 with 0.0.0, commit 0.0.0
  peer 4: nothing shipped; accept 0.0.0, vote 0.0 with 0.0.0, commit 0.0.0
  peer 5: nothing shipped; accept 0.0.0, vote 0.0 with 0.0.0, commit 0.0.0
  log: 0 of 16 places
  board: every load is open
ok 0
no 7
no 4
ok
ok 0
no 4
no 4
no 7
no 5
no 1
no 5
no 5
no 6
no 1
no 5
no 7
no 1
no 5
ok
no 5
no 1
no 4
ok
ok
no 5
no 1
no 4
no 1
no 7
ok
ok
no 1
ok
no 1
no 4
ok
no 4
no 1
ok
ok
ok
no 4
no 4
no 6
no 4
ok
no 5
card 4: electing
  epoch 0.0, new epoch 1.4, vote 1.4 with 0.0.0
  accepted 0.0.0, committed 0.0.0, next 0.0.0
  peer 1: nothing shipped; accept 0.0.0, vote 0.0 with 0.0.0, commit 0.0.0
  peer 2: nothing shipped; accept 0.0.0, vote 0.0 with 0.0.0, commit 0.0.0
  peer 3: nothing shipped; accept 0.0.0, vote 0.3 with 0.0.0, commit 0.0.0
  peer 5: nothing shipped; accept 0.0.0, vote 0.0 with 0.0.0, commit 0.0.0
  log: 0 of 16 places
  board: every load is open
ok
no 6
no 4
no 5
no 5
ok 0
no 5
no 5
no 4
ok
no 1
no 4
no 1
no 4
no 5
no 4
no 4
no 6
no 4
no 5
ok
ok
no 1
no 6
no 5
no 4
no 4
ok
ok
no 5
no 3
no 5
no 5
ok
no 4
no 5
no 4
no 1
no 5
no 5
no 5
ok
no 4
no 1
ok 1 5
no 5
no 5
no 4
no 4
no 7
no 4
no 5
no 3
ok
no 4
no 5
ok
no 5
no 5
ok
no 5
ok 2 5
ok 1 2
no 5
no 7
no 6
no 5
no 1
no 5
no 4
ok
no 5
no 4
ok 0
no 1
no 5
no 1
no 6
no 4
no 1
ok
no 4
no 6
no 1
no 4
no 5
no 4
no 4
no 5
no 5
no 5
no 5
no 6
no 6
ok
ok
ok 1 3
no 1
no 3
ok
no 4
no 4
no 7
no 5
no 7
no 5
no 6
no 5
no 5
ok
no 5
no 1
no 5
ok
no 7
no 5
no 1
no 5
no 6
no 5
no 6
no 6
ok
no 1
ok 0
ok 0
no 1
no 5
no 7
no 5
no 1
no 1
no 1
no 1
ok
no 4
ok
no 1
no 1
no 1
no 5
no 5
no 4
no 6
no 6
ok 0
no 5
no 5
no 3
no 4
no 5
ok
ok 2 3
no 5
no 5
no 5
no 5
no 1
no 5
no 6
no 1
no 1
no 1
no 5
no 5
no 5
no 6
no 5
no 1
no 7
no 6
ok
no 1
ok
no 4
no 1
no 4
ok
no 5
no 5
no 4
ok
ok
no 4
ok 0
no 1
no 5
ok
no 4
no 4
no 1
no 6
no 4
no 1
ok
no 3
ok
no 1
no 4
no 6
no 6
no 4
no 4
no 5
no 5
ok
no 1
no 5
ok
no 4
no 6
no 5
no 5
ok 0
no 5
no 4
ok 2 4
ok
no 6
no 5
ok 0
no 6
no 4
card 1
card 2
card 3
card 4
card 5
",
};
