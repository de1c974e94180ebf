use crate::scripts::Stored;

pub(crate) const SCRIPT: Stored = Stored {
    rack: "cards=7 room=2 machine=board",
    lines: "submit 2 9 7 1 43
push 1 5 6
commit 7
win 2
commit 6
take 1 1
look 5 1 6
submit 3 13 7 1 43
win 6
look 4 5 5
commit 0
push 2 3 5
win 7
look 3 2 5
submit 6 15 7 1 42
push 2 2 5
timeout 3
look 6 6 6
submit 7 7 7 1 42
ship 7 6
look 6 1 5
ship 6 2
look 6 1 4
ship 6 7
elect 2
push 1 3 5
commit 2
push 5 4 4
elect 7
elect 5
take 6 6
submit 1 6 7 2 42
commit 6
commit 3
stop 4
look 3 1 5
look 4 5 4
look 0 4 6
take 7 4
commit 3
commit 2
push 7 5 5
submit 2 0 7 1 43
commit 4
ship 2 4
look 4 5 4
ship 4 1
take 3 4
commit 6
commit 6
submit 4 0 63 2 65535
win 7
commit 1
commit 5
ship 1 2
ship 7 4
commit 7
take 5 2
commit 5
ship 5 1
commit 0
commit 6
submit 5 0 7 1 43
commit 2
commit 6
take 4 7
submit 6 12 7 1 43
ship 7 2
ship 6 2
take 3 2
push 4 5 5
commit 4
commit 6
commit 7
look 7 7 6
push 5 7 5
look 4 5 4
elect 4
take 1 4
ship 1 2
push 4 1 5
push 5 3 6
submit 2 4 7 1 42
look 7 5 5
submit 5 9 7 1 43
commit 5
submit 5 5 63 1 65535
win 2
commit 6
look 3 5 6
submit 7 8 7 1 42
ship 6 7
look 4 5 4
ship 5 4
ship 7 5
take 7 7
win 1
take 5 2
ship 5 4
submit 3 16 7 2 42
commit 1
push 3 6 5
commit 5
commit 5
look 4 5 4
commit 1
look 5 7 5
take 2 3
show 7
push 3 6 6
commit 2
take 6 6
win 7
ship 5 1
look 6 3 5
submit 3 14 7 1 42
push 2 7 5
look 6 3 6
submit 4 3 64 1 1
push 5 2 6
take 2 7
commit 7
push 5 3 6
commit 2
take 4 6
win 5
commit 5
push 5 3 6
look 4 5 4
elect 6
elect 2
commit 2
take 7 1
take 6 4
take 1 3
take 5 5
elect 4
elect 8
take 7 5
look 2 5 6
commit 2
ship 6 5
elect 4
look 7 2 5
submit 4 8 7 1 43
commit 7
take 2 3
push 1 7 5
commit 5
look 3 5 6
win 6
commit 3
look 4 5 4
show 1
push 6 6 5
elect 6
commit 2
win 7
elect 7
elect 4
submit 6 10 0 0 1
look 6 2 6
push 4 1 4
take 4 1
take 1 7
push 4 6 4
submit 7 6 7 2 42
commit 1
commit 4
push 5 7 6
push 2 5 4
timeout 1
submit 7 6 7 1 42
push 1 2 4
push 4 7 5
commit 4
elect 3
commit 4
take 3 5
commit 6
take 5 5
timeout 3
look 4 5 4
win 3
take 1 3
win 4
take 4 6
win 1
commit 4
look 2 1 4
commit 1
look 5 2 4
look 1 1 5
win 4
submit 4 13 7 1 43
timeout 6
elect 3
push 7 4 6
take 4 1
ship 5 1
look 4 5 4
ship 1 5
take 4 1
look 4 5 4
look 3 5 6
take 8 5
look 4 5 4
push 5 6 4
push 1 3 5
show 5
timeout 7
ship 4 6
look 6 5 4
submit 5 3 7 1 43
elect 5
push 2 7 5
ship 2 6
commit 2
ship 2 3
push 3 5 4
ship 5 2
commit 4
show 4
ship 5 4
push 7 3 6
elect 4
commit 3
commit 1
elect 6
submit 3 15 7 1 42
take 3 1
ship 7 5
win 3
push 6 2 5
timeout 3
look 4 5 4
submit 5 10 7 2 42
push 1 1 6
commit 3
take 6 1
submit 3 11 7 2 42
elect 6
take 2 6
elect 5
take 5 5
push 2 1 5
take 4 3
look 1 2 5
win 3
take 0 3
commit 7
take 3 1
take 1 6
submit 5 14 7 1 43
ship 3 5
elect 7
look 4 5 5
commit 6
take 3 7
timeout 5
ship 6 3
commit 2
look 7 5 6
elect 6
commit 2
ship 2 3
look 2 6 5
take 1 1
elect 1
elect 4
ship 2 7
win 6
push 7 4 5
push 5 2 6
take 1 3
win 7
commit 5
look 7 1 5
ship 4 7
commit 7
ship 5 1
push 2 6 5
push 1 5 6
commit 1
look 7 2 5
show 3
commit 6
take 2 3
commit 6
take 3 1
push 1 7 5
look 1 5 6
commit 2
push 1 2 6
win 7
take 2 6
ship 1 4
ship 5 2
look 7 1 5
take 5 4
push 3 4 6
timeout 4
elect 7
submit 1 0 7 1 43
elect 6
win 5
win 7
timeout 5
submit 6 8 7 1 43
push 2 5 5
commit 2
elect 2
commit 5
ship 7 4
commit 1
timeout 3
take 7 5
commit 6
push 1 4 5
ship 4 4
commit 3
push 2 2 4
ship 2 1
take 6 3
submit 4 10 0 1 65536
commit 7
take 5 6
push 3 5 4
push 4 3 6
commit 2
push 3 3 4
commit 4
push 5 2 6
push 4 6 6
push 4 2 6
push 6 7 6
ship 7 5
push 1 0 5
push 2 2 6
submit 1 0 7 2 42
look 6 2 5
push 3 3 4
timeout 2
commit 5
elect 6
elect 3
ship 7 1
push 4 3 5
look 2 5 6
commit 2
look 2 2 5
take 5 4
ship 7 2
commit 7
ship 3 5
ship 4 2
elect 2
commit 5
commit 1
commit 0
commit 4
push 4 7 4
take 3 4
ship 6 7
win 5
commit 2
win 3
submit 7 12 7 1 43
push 4 5 4
push 5 1 4
take 3 1
look 3 7 5
timeout 5
commit 2
commit 6
win 5
win 1
ship 1 6
look 1 5 4
ship 3 3
win 3
look 5 3 4
push 3 5 6
push 2 5 5
commit 2
take 5 1
timeout 6
submit 7 0 7 1 43
ship 7 3
take 2 7
ship 3 7
look 3 1 5
look 5 3 6
look 5 3 4
take 1 4
submit 2 1 7 1 43
take 4 5
commit 4
ship 3 4
commit 7
submit 2 14 7 2 42
take 4 4
look 4 7 5
push 6 7 5
commit 3
ship 3 2
commit 7
commit 1
look 7 6 4
ship 7 6
submit 3 1 7 2 42
commit 7
look 2 1 6
look 4 1 5
push 2 6 5
take 3 3
win 1
commit 2
look 5 2 5
commit 4
push 1 5 5
push 2 2 5
push 4 7 4
push 5 3 4
push 2 3 5
submit 3 7 7 2 42
push 5 2 5
push 3 3 4
push 6 3 6
ship 7 4
look 5 3 4
look 5 1 6
submit 5 4 7 2 42
ship 7 3
win 1
take 5 7
commit 1
ship 6 5
push 6 7 6
submit 5 1 7 2 42
commit 3
look 6 5 6
ship 1 6
push 7 2 6
commit 5
take 7 5
ship 6 1
elect 2
commit 7
look 3 5 4
elect 1
take 4 3
ship 5 5
commit 5
take 2 3
push 2 3 5
ship 6 7
submit 4 1 7 1 43
look 3 6 6
take 5 6
push 6 6 5
submit 5 0 7 1 43
win 7
look 3 7 6
submit 3 9 7 2 42
win 6
submit 5 7 7 2 42
push 5 2 4
look 2 5 6
look 5 1 5
push 6 7 5
take 2 4
push 5 3 4
ship 5 4
take 6 4
push 6 4 4
push 5 5 5
commit 7
submit 4 15 7 2 42
elect 3
push 3 4 6
push 4 4 5
look 6 4 5
commit 4
look 2 5 5
commit 1
push 2 7 5
ship 1 3
ship 6 3
look 2 7 6
win 2
submit 6 5 63 1 65535
elect 4
push 7 2 5
elect 2
take 6 5
push 3 5 4
submit 5 4 7 2 42
submit 5 13 7 1 43
submit 2 14 7 1 43
",
    prints: "no 5
ok
no 5
no 7
no 5
no 1
ok
no 5
no 7
no 6
no 1
ok
no 7
ok
no 5
no 1
ok 0 3
no 1
no 5
no 5
no 6
no 5
no 6
no 5
ok 0
ok
no 5
ok
ok 0
ok 0
no 1
no 5
no 5
no 5
ok
ok
no 4
no 1
no 6
no 5
no 5
ok
no 5
no 4
no 5
no 4
no 4
no 6
no 5
no 5
no 4
no 7
no 5
no 5
no 5
no 5
no 5
no 6
no 5
no 5
no 1
no 5
no 5
no 5
no 5
no 4
no 5
no 5
no 5
no 6
no 4
no 4
no 5
no 5
no 1
ok
no 4
no 4
no 6
no 5
no 4
ok
no 5
ok
no 5
no 5
no 5
no 7
no 5
ok
no 5
no 5
no 4
no 5
no 5
no 1
no 7
no 6
no 5
no 3
no 5
ok
no 5
no 5
no 4
no 5
ok
no 6
card 7: electing
  epoch 0.0, new epoch 0.0, vote 0.0 with 0.0.0
  accepted 0.0.0, committed 0.0.0, next 0.0.0
  peer 1: nothing shipped; accept 0.0.0, vote 0.0 with 0.0.0, commit 0.0.0
  peer 2: nothing shipped; accept 0.0.0, vote 0.0 with 0.0.0, commit 0.0.0
  peer 3: nothing shipped; accept 0.0.0, vote 0.0 with 0.0.0, commit 0.0.0
  peer 4: nothing shipped; accept 0.0.0, vote 0.0 with 0.0.0, commit 0.0.0
  peer 5: nothing shipped; accept 0.0.0, vote 0.0 with 0.0.0, commit 0.0.0
  peer 6: nothing shipped; accept 0.0.0, vote 0.0 with 0.0.0, commit 0.0.0
  log: 0 of 16 places
  board: every load is open
ok
no 5
no 1
no 7
no 5
ok
no 5
ok
ok
no 3
ok
no 6
no 5
ok
no 5
no 4
no 7
no 5
ok
no 4
ok 2
ok 0
no 5
no 6
no 6
no 6
no 1
no 4
no 1
no 6
ok
no 5
no 5
no 4
ok
no 4
no 5
no 6
ok
no 5
ok
no 7
no 5
no 4
card 1: electing
  epoch 0.0, new epoch 0.0, vote 0.0 with 0.0.0
  accepted 0.0.0, committed 0.0.0, next 0.0.0
  peer 2: nothing shipped; accept 0.0.0, vote 0.0 with 0.0.0, commit 0.0.0
  peer 3: nothing shipped; accept 0.0.0, vote 0.0 with 0.0.0, commit 0.0.0
  peer 4: nothing shipped; accept 0.0.0, vote 0.0 with 0.0.0, commit 0.0.0
  peer 5: nothing shipped; accept 0.0.0, vote 0.0 with 0.0.0, commit 0.0.0
  peer 6: nothing shipped; accept 0.0.0, vote 0.0 with 0.0.0, commit 0.0.0
  peer 7: nothing shipped; accept 0.0.0, vote 0.0 with 0.0.0, commit 0.0.0
  log: 0 of 16 places
  board: every load is open
no 1
ok 0
no 5
no 7
ok 0
no 4
no 3
no 6
no 4
no 4
no 6
no 4
no 5
no 5
no 4
ok
ok
ok 0 1
no 5
ok
no 4
no 4
ok 0
no 4
no 6
no 5
no 1
ok 1 3
no 4
no 7
no 6
no 4
no 4
no 7
no 4
ok
no 5
ok
no 1
no 4
no 4
ok 0 6
ok 0
ok
no 4
no 5
no 4
no 5
no 4
no 4
ok
no 1
no 4
ok
ok
card 5: electing
  epoch 0.0, new epoch 0.0, vote 0.0 with 0.0.0
  accepted 0.0.0, committed 0.0.0, next 0.0.0
  peer 1: nothing shipped; accept 0.0.0, vote 0.0 with 0.0.0, commit 0.0.0
  peer 2: nothing shipped; accept 0.0.0, vote 0.0 with 0.0.0, commit 0.0.0
  peer 3: nothing shipped; accept 0.0.0, vote 0.0 with 0.0.0, commit 0.0.0
  peer 4: nothing shipped; accept 0.0.0, vote 0.0 with 0.0.0, commit 0.0.0
  peer 6: nothing shipped; accept 0.0.0, vote 0.0 with 0.0.0, commit 0.0.0
  peer 7: nothing shipped; accept 0.0.0, vote 0.0 with 0.0.0, commit 0.0.0
  log: 0 of 16 places
  board: every load is open
ok 0 7
no 4
ok
no 5
ok 0
ok
no 5
no 5
no 5
ok
no 5
no 4
card 4: electing, stopped
  epoch 0.0, new epoch 0.0, vote 0.0 with 0.0.0
  accepted 0.0.0, committed 0.0.0, next 0.0.0
  peer 1: nothing shipped; accept 0.0.0, vote 0.0 with 0.0.0, commit 0.0.0
  peer 2: nothing shipped; accept 0.0.0, vote 0.0 with 0.0.0, commit 0.0.0
  peer 3: nothing shipped; accept 0.0.0, vote 0.0 with 0.0.0, commit 0.0.0
  peer 5: nothing shipped; accept 0.0.0, vote 0.0 with 0.0.0, commit 0.0.0
  peer 6: nothing shipped; accept 0.0.0, vote 0.0 with 0.0.0, commit 0.0.0
  peer 7: nothing shipped; accept 0.0.0, vote 0.0 with 0.0.0, commit 0.0.0
  log: 0 of 16 places
  board: every load is open
no 5
ok
no 4
no 5
no 5
ok 0
no 5
no 6
no 5
no 7
ok
ok 2 3
no 4
no 5
no 1
no 5
no 6
no 5
ok 0
no 6
ok 0
no 1
ok
no 4
ok
no 7
no 1
no 5
no 6
no 6
no 5
no 5
ok 0
no 4
no 5
no 6
ok 0 5
no 5
no 5
ok
ok 0
no 5
no 5
ok
no 1
ok 0
no 4
no 5
no 7
ok
ok
no 6
no 7
no 5
ok
no 4
no 5
no 5
ok
ok
no 5
ok
card 3: electing
  epoch 0.0, new epoch 2.3, vote 2.3 with 0.0.0
  accepted 0.0.0, committed 0.0.0, next 0.0.0
  peer 1: nothing shipped; accept 0.0.0, vote 0.0 with 0.0.0, commit 0.0.0
  peer 2: nothing shipped; accept 0.0.0, vote 0.0 with 0.0.0, commit 0.0.0
  peer 4: nothing shipped; accept 0.0.0, vote 0.0 with 0.0.0, commit 0.0.0
  peer 5: nothing shipped; accept 0.0.0, vote 0.0 with 0.0.0, commit 0.0.0
  peer 6: nothing shipped; accept 0.0.0, vote 0.0 with 0.0.0, commit 0.0.0
  peer 7: nothing shipped; accept 0.0.0, vote 0.0 with 0.0.0, commit 0.0.0
  log: 0 of 16 places
  board: every load is open
no 5
no 6
no 5
no 6
ok
no 6
no 5
ok
no 7
no 6
no 5
no 5
ok
no 6
ok
no 4
ok 0
no 5
ok 0
no 7
no 7
ok 1 5
no 5
ok
no 5
ok 2
no 5
no 5
no 5
ok 3 3
no 6
no 5
ok
no 1
no 5
no 1
no 5
no 6
no 3
no 5
no 6
ok
no 4
no 5
no 1
no 4
ok
no 4
no 4
ok
no 5
no 1
no 1
no 5
ok
no 1
ok 1 2
no 5
ok 0
ok 0
no 5
no 4
ok
no 5
no 1
no 6
no 5
no 5
no 5
no 4
ok 0
no 5
no 5
no 1
no 4
no 4
no 6
no 5
no 7
no 5
no 7
no 5
no 4
ok
no 6
no 6
ok 2 5
no 5
no 5
no 7
no 7
no 5
ok
no 1
no 7
ok
ok
ok
no 5
no 6
ok 1 6
no 5
no 5
no 6
no 5
ok
ok
ok
no 6
no 5
no 4
no 4
no 5
no 5
no 5
no 1
no 4
ok
no 5
no 5
no 5
no 5
no 6
no 5
no 5
no 5
ok
no 4
ok
no 1
no 7
no 5
ok
no 4
ok
no 1
no 4
ok
ok
no 5
ok
no 1
ok
no 5
no 6
ok
no 5
no 5
no 7
no 6
no 5
no 5
ok
no 5
no 5
no 6
no 5
ok
no 5
no 6
no 5
ok 0
no 5
ok
ok 0
no 4
no 1
no 5
no 6
ok
no 5
no 4
ok
no 6
no 1
no 5
no 7
ok
no 5
no 7
no 5
ok
ok
ok
ok
no 6
ok
no 5
no 6
ok
no 1
no 5
no 4
ok 0
ok
no 1
no 6
no 4
ok
no 5
ok
no 5
no 5
ok
no 7
no 5
no 4
ok
ok 2
no 6
ok
no 5
no 5
no 5
card 1
card 2
card 3
card 4
card 5
card 6
card 7
",
};
