use crate::scripts::Stored;

pub(crate) const SCRIPT: Stored = Stored {
    rack: "backplane=box",
    lines: "commit 3
look 1 1 4
win 2
commit 0
take 1 3
commit 1
ship 1 3
submit 1 15 2 250
push 3 1 6
elect 1
elect 1
win 3
look 1 3 6
commit 3
timeout 2
look 1 3 4
push 3 1 4
push 1 1 5
ship 1 1
commit 1
take 1 3
take 2 1
push 1 3 6
look 1 3 4
commit 3
take 1 3
ship 2 1
submit 1 0 3 500
elect 1
win 3
ship 2 2
look 3 1 6
submit 1 6 2 -500
commit 1
look 3 2 4
submit 2 9 2 -500
submit 2 7 2 -500
win 1
take 3 1
ship 2 2
take 3 2
push 1 3 6
look 3 1 6
push 3 2 5
push 2 1 4
ship 2 1
ship 2 1
ship 1 2
submit 3 2 2 -500
submit 2 0 2 250
submit 2 7 2 250
look 2 3 5
take 3 1
push 3 2 4
look 1 2 4
commit 1
win 3
take 1 3
push 3 1 5
win 1
push 3 3 5
win 1
take 1 2
look 1 3 5
commit 2
submit 1 2 2 250
take 1 1
commit 3
commit 1
look 2 3 4
look 3 1 4
take 2 1
submit 3 14 3 500
look 3 3 5
look 2 2 4
commit 3
ship 3 1
push 3 2 6
take 3 2
win 1
submit 2 12 2 -500
ship 1 2
take 3 2
submit 3 16 3 500
commit 2
ship 3 1
look 2 3 6
take 2 3
take 1 2
commit 3
commit 1
take 4 3
push 1 2 4
look 2 1 4
take 2 3
submit 2 11 3 500
ship 3 2
win 3
commit 2
take 1 3
push 3 2 4
ship 1 3
commit 2
push 1 1 6
commit 2
take 1 2
push 2 3 4
push 1 2 5
submit 1 15 3 500
push 2 1 6
push 2 2 5
elect 2
take 1 2
take 3 3
stop 1
take 1 2
commit 2
take 1 3
ship 3 3
commit 2
take 1 2
submit 2 6 3 500
look 2 3 4
look 1 2 6
commit 2
commit 2
push 3 3 4
look 1 2 6
look 2 1 5
elect 3
ship 1 1
look 3 2 4
look 1 2 6
ship 3 3
commit 3
ship 3 2
push 1 1 5
commit 2
ship 1 2
commit 1
ship 3 1
ship 1 3
submit 1 1 2 -500
take 0 1
push 2 3 5
win 3
look 1 2 6
ship 2 3
ship 2 1
ship 2 1
take 2 3
push 3 3 4
submit 2 16 3 500
timeout 2
ship 1 4
elect 2
take 1 1
push 1 1 5
look 1 2 6
look 3 2 5
look 1 2 6
commit 3
push 1 2 6
elect 2
take 3 2
push 3 1 6
ship 3 2
ship 3 3
ship 3 1
win 2
ship 3 2
take 1 3
look 1 2 6
commit 1
push 1 3 4
win 2
commit 1
commit 2
push 3 1 4
look 1 3 6
commit 3
ship 2 1
win 3
look 1 3 6
look 1 3 4
win 3
timeout 2
commit 1
push 3 2 4
elect 2
commit 1
take 1 3
ship 3 1
push 1 3 4
look 3 1 4
commit 1
look 1 3 4
commit 3
look 1 3 6
take 3 3
stop 3
take 3 3
push 3 2 5
push 3 2 6
submit 2 2 3 500
submit 1 5 2 250
look 2 3 4
ship 3 2
ship 1 2
elect 3
commit 1
look 1 2 6
ship 3 3
ship 3 3
commit 2
push 1 3 6
commit 1
take 1 3
commit 1
look 1 3 6
take 2 1
look 1 3 4
look 1 2 6
timeout 2
look 1 3 6
push 1 3 4
commit 3
elect 1
ship 1 3
submit 1 16 2 250
push 0 2 5
elect 2
ship 3 1
ship 1 3
commit 3
take 3 2
take 3 1
commit 3
look 1 2 6
win 1
push 1 2 5
ship 1 3
take 1 3
take 1 3
submit 1 9 2 250
win 1
commit 2
ship 3 1
win 1
commit 2
look 1 3 4
push 3 3 5
look 1 3 4
commit 3
timeout 3
push 1 3 5
ship 2 1
win 3
ship 1 1
push 3 3 5
take 2 1
look 1 3 6
look 1 2 6
take 2 3
push 1 3 5
commit 1
look 1 3 6
push 3 2 6
ship 2 3
submit 2 9 3 500
commit 3
commit 3
elect 2
ship 1 2
look 1 2 6
ship 1 2
look 1 3 6
submit 4 11 2 250
submit 3 16 3 500
elect 1
push 2 2 5
look 1 2 6
look 1 3 6
ship 2 1
submit 3 14 32 0
ship 1 2
submit 1 3 2 250
push 2 3 4
look 0 2 6
elect 3
submit 2 5 2 -500
submit 2 15 2 -500
ship 4 3
take 2 2
commit 1
push 2 1 5
win 1
push 2 2 6
timeout 1
win 3
ship 2 2
take 3 3
win 3
take 3 2
take 1 1
elect 2
take 1 1
submit 3 0 2 250
commit 2
commit 2
win 3
submit 1 16 3 500
look 1 1 6
take 1 2
take 2 3
win 2
ship 1 2
push 3 2 4
push 3 1 6
ship 3 2
push 2 1 5
commit 2
look 1 3 4
commit 1
push 3 1 4
win 3
commit 3
ship 1 1
ship 3 3
ship 2 2
take 3 2
look 1 2 5
commit 3
look 1 3 4
elect 3
take 1 1
elect 2
elect 2
commit 1
ship 1 3
ship 1 2
look 1 2 5
elect 2
ship 3 3
elect 3
look 1 2 5
submit 3 15 2 250
look 1 2 5
commit 1
win 2
commit 2
commit 1
ship 2 3
take 1 3
elect 1
ship 1 2
take 3 2
look 1 2 5
ship 2 1
commit 3
take 3 1
commit 3
look 1 3 4
ship 3 1
look 1 2 5
commit 2
push 3 3 5
commit 2
ship 3 1
push 3 3 5
submit 2 16 32 0
commit 2
ship 1 3
take 2 3
look 1 3 4
look 1 3 4
look 1 2 5
submit 1 6 3 500
elect 3
submit 3 6 3 500
look 1 2 5
ship 3 1
push 3 2 4
look 1 2 6
ship 2 1
ship 3 1
win 1
push 1 3 6
elect 2
ship 1 3
submit 2 14 2 250
push 3 1 4
push 1 2 5
take 3 2
look 1 2 6
submit 2 6 2 -500
commit 3
look 1 2 5
ship 3 2
commit 3
commit 1
submit 3 3 2 -500
look 2 1 5
win 1
take 2 3
ship 2 1
push 1 2 4
take 3 2
push 3 1 4
win 2
commit 3
commit 1
ship 1 3
timeout 2
win 3
ship 3 3
submit 1 4 2 250
commit 2
ship 3 3
take 1 3
submit 1 5 2 250
submit 3 2 3 500
look 1 2 6
push 1 2 5
ship 1 3
look 1 3 4
take 2 2
commit 2
ship 2 1
commit 3
push 1 2 6
push 2 3 4
ship 3 2
take 2 3
take 2 3
submit 2 14 2 250
submit 1 0 2 -500
take 2 3
ship 1 3
push 1 3 6
ship 3 1
look 1 3 6
take 1 1
look 1 2 5
look 1 2 5
timeout 3
timeout 3
elect 2
commit 2
ship 1 3
submit 2 16 2 -500
win 1
ship 3 3
submit 3 11 2 -500
commit 3
take 3 1
take 3 2
look 1 2 6
push 2 1 5
commit 2
win 2
look 3 0 4
ship 3 2
ship 1 1
take 2 2
take 1 3
ship 1 2
commit 1
elect 1
look 3 2 4
take 2 1
push 3 3 4
push 2 1 5
win 1
take 2 2
take 3 1
push 2 2 4
take 3 1
elect 2
look 1 2 5
push 1 1 4
ship 2 2
ship 2 3
win 3
push 1 2 5
timeout 3
timeout 2
push 1 2 6
elect 1
take 1 2
commit 3
submit 2 15 2 -500
win 3
ship 2 2
elect 2
ship 2 1
elect 1
timeout 3
look 1 2 6
show 1
",
    prints: "no 5
no 1
no 7
no 1
no 6
no 5
no 5
no 5
ok
ok 0
ok 0
no 7
ok
no 5
ok 0 2
no 6
ok
no 1
no 1
no 5
no 6
no 6
ok
ok
no 5
no 6
no 5
no 5
ok 0
no 7
no 1
ok
no 5
no 5
no 6
no 5
no 5
no 7
no 6
no 1
no 6
ok
ok
ok
ok
no 5
no 5
no 5
no 5
no 5
no 5
ok
no 6
ok
ok
no 5
no 7
no 6
ok
no 7
no 1
no 7
no 6
ok
no 5
no 5
no 1
no 5
no 5
ok
no 6
no 6
no 5
no 1
no 1
no 5
no 5
ok
no 6
no 7
no 5
no 5
no 6
no 3
no 5
no 5
ok
no 6
no 6
no 5
no 5
no 1
ok
ok
no 6
no 5
no 5
no 7
no 5
no 6
ok
no 5
no 5
no 1
no 5
no 6
ok
ok
no 5
ok
no 1
ok 0
no 6
no 1
ok
no 4
no 5
no 4
no 1
no 5
no 4
no 5
ok
no 4
no 5
no 5
no 1
no 4
ok
ok 0
no 1
ok
no 4
no 1
no 5
no 5
no 1
no 5
no 4
no 4
no 5
no 4
no 4
no 1
ok
no 7
no 4
no 5
no 5
no 5
no 6
no 1
no 3
ok 1 2
no 1
ok 0
no 1
no 1
no 4
ok
no 4
no 5
no 4
ok 0
no 6
ok
no 5
no 1
no 5
no 7
no 5
no 4
no 4
no 4
no 4
no 7
no 4
no 5
ok
no 4
no 5
no 5
no 7
no 4
no 4
no 7
ok 2 2
no 4
ok
ok 0
no 4
no 4
no 5
no 4
no 6
no 4
no 4
no 5
no 4
no 1
ok
no 1
no 4
no 4
no 5
no 4
ok
no 4
no 4
no 4
no 4
no 4
no 1
no 1
no 5
no 4
no 4
no 4
no 4
no 4
no 6
no 4
no 4
ok 3 2
no 4
no 4
no 4
no 4
no 4
no 3
no 1
ok 0
no 4
no 4
no 4
no 4
no 4
no 4
no 4
no 4
no 4
no 4
no 4
no 4
no 4
no 4
no 5
no 4
no 4
no 5
no 4
no 1
no 4
no 4
no 4
no 4
no 5
no 4
no 1
no 1
no 6
no 4
no 4
no 6
no 4
no 4
no 4
no 4
no 5
no 5
no 4
no 4
ok 0
no 4
no 4
no 4
no 4
no 1
no 3
no 4
no 1
no 4
no 4
no 5
no 3
no 4
no 4
ok
no 1
no 4
no 5
no 5
no 1
no 1
no 4
ok
no 4
no 1
no 4
no 4
no 1
no 1
no 4
no 4
no 1
ok 0
no 1
no 4
no 5
no 5
no 4
no 3
no 1
no 4
no 6
no 7
no 4
no 4
no 4
no 4
ok
no 5
no 4
no 4
no 4
no 4
no 4
no 1
no 1
no 1
no 4
no 4
no 4
no 4
no 4
no 1
ok 0
ok 0
no 4
no 4
no 4
no 4
ok 0
no 1
no 4
no 4
no 4
no 4
no 4
no 7
no 5
no 4
no 5
no 4
no 4
no 4
no 4
no 4
no 5
no 4
no 4
no 4
no 4
no 4
no 4
no 5
no 1
no 5
no 4
no 1
no 3
no 5
no 4
no 6
no 4
no 4
no 4
no 4
no 4
no 4
no 4
no 4
no 4
no 4
no 5
no 4
no 4
no 4
ok 0
no 4
no 5
no 4
no 4
no 4
no 4
no 5
no 4
no 4
no 4
no 4
no 4
no 4
no 6
no 4
no 6
no 5
no 4
no 4
no 4
no 7
no 4
no 4
no 4
ok 4 2
no 4
no 1
no 4
no 5
no 1
no 4
no 4
no 4
no 4
no 4
no 4
no 4
no 1
no 5
no 5
no 4
no 4
ok
no 4
no 6
no 6
no 5
no 4
no 6
no 4
no 4
no 4
no 4
no 1
no 4
no 4
no 4
no 4
ok 0
no 5
no 4
no 3
no 4
no 1
no 4
no 4
no 4
no 4
no 4
ok
no 5
no 7
no 1
no 4
no 1
no 1
no 4
no 4
no 4
no 4
no 4
no 6
no 1
ok
no 4
no 1
no 4
no 1
no 4
ok 0
no 4
no 1
no 1
no 5
no 4
no 4
no 4
ok 5 2
no 4
no 4
no 4
no 4
no 5
no 4
no 1
ok 0
no 5
no 4
no 4
no 4
card 1: electing, stopped
  epoch 0.0, new epoch 0.0, vote 0.0 with 0.0.0
  accepted 0.0.0, committed 0.0.0, next 0.0.0
  peer 2: nothing shipped; accept 0.0.0, vote 0.0 with 0.0.0, commit 0.0.0
  peer 3: nothing shipped; accept 0.0.0, vote 0.0 with 0.0.0, commit 0.0.0
  log: 0 of 16 places
  ledger: every balance is 0
card 1
card 2
card 3
",
};
