use crate::scripts::Stored;

pub(crate) const SCRIPT: Stored = Stored {
    rack: "cards=5 room=1",
    lines: "commit 1
push 2 3 6
ship 4 4
take 2 2
push 5 1 6
commit 4
commit 4
ship 5 1
push 3 1 5
commit 5
elect 3
take 1 2
look 1 3 5
commit 1
take 2 5
look 3 2 6
look 1 5 6
take 4 5
look 2 5 6
elect 3
ship 3 3
push 2 1 4
look 1 2 4
look 3 4 5
take 2 4
ship 2 2
elect 2
look 1 4 6
elect 5
push 4 5 4
commit 1
push 1 4 5
ship 1 2
push 2 5 5
ship 2 3
commit 5
ship 1 3
look 5 2 5
take 5 5
commit 4
take 3 4
ship 5 2
stop 5
elect 4
ship 3 2
submit 5 10 2 250
show 5
take 2 3
look 4 1 5
push 4 2 4
commit 2
submit 5 3 2 -500
look 5 4 4
win 5
submit 2 0 2 250
look 2 4 4
show 5
commit 4
commit 5
commit 5
commit 1
timeout 3
take 2 5
submit 5 9 2 250
win 2
commit 4
submit 1 14 3 500
push 2 5 5
win 3
ship 5 5
submit 5 1 2 -500
take 3 4
take 1 1
take 2 5
push 3 5 6
push 2 3 5
push 2 5 6
win 2
commit 3
push 1 6 6
submit 5 13 2 250
commit 2
commit 1
push 2 3 5
submit 2 5 3 500
look 3 2 5
take 4 1
timeout 5
commit 3
commit 4
ship 4 4
win 5
look 5 2 5
push 5 1 4
commit 2
push 2 3 6
commit 4
elect 3
commit 3
submit 4 12 2 250
push 4 2 4
push 4 4 4
elect 5
take 1 2
look 5 5 5
commit 3
win 3
push 3 3 6
take 1 2
take 2 1
take 3 1
timeout 2
ship 3 4
look 5 2 5
push 2 3 4
take 4 4
take 3 2
timeout 2
ship 4 1
take 5 4
commit 1
ship 5 3
submit 4 14 2 -500
commit 1
take 5 1
submit 1 12 2 250
elect 5
ship 4 4
take 1 5
commit 1
push 5 4 4
submit 2 13 3 500
commit 4
commit 3
ship 4 5
look 5 2 5
commit 3
push 3 4 6
elect 1
take 3 2
push 1 2 6
push 5 5 5
ship 3 3
submit 1 11 2 250
timeout 1
take 3 1
take 3 3
submit 1 16 2 250
ship 1 1
look 2 4 4
take 5 4
commit 1
submit 5 5 3 500
look 5 4 4
commit 3
push 3 4 4
look 5 3 6
look 5 4 4
take 2 2
take 2 3
look 5 2 6
take 5 3
push 1 5 6
win 4
look 5 1 6
commit 2
ship 1 1
commit 2
commit 2
commit 3
commit 5
ship 3 5
look 5 4 4
push 3 1 5
take 6 3
elect 1
win 3
elect 3
push 1 3 6
take 2 5
commit 2
push 1 5 5
ship 5 4
take 1 3
submit 2 4 3 500
push 2 1 5
submit 2 1 2 250
push 2 1 6
look 2 1 6
push 5 1 5
elect 4
take 1 5
ship 2 4
submit 5 5 0 -2147483649
push 2 2 5
push 1 4 6
look 5 1 5
elect 1
win 2
commit 5
elect 4
win 4
win 3
commit 3
look 1 2 5
take 5 4
submit 1 15 3 500
commit 2
ship 3 1
commit 3
look 5 1 5
commit 4
ship 5 1
commit 1
take 1 5
ship 3 5
win 3
ship 3 4
look 5 2 5
push 5 3 5
ship 3 4
push 1 5 5
commit 5
push 1 4 5
elect 4
push 1 1 5
win 3
look 5 1 5
take 5 5
commit 2
submit 5 14 2 -500
submit 2 16 2 -500
submit 2 12 2 250
take 4 1
elect 4
win 5
take 4 2
elect 1
take 5 4
win 4
push 5 1 5
push 4 5 5
take 3 1
win 2
take 1 3
commit 1
elect 5
submit 1 9 3 500
ship 1 5
ship 1 5
commit 1
commit 3
push 5 4 4
elect 5
submit 1 12 3 500
commit 1
take 5 2
look 5 1 6
commit 5
ship 4 4
submit 0 16 2 250
elect 3
submit 1 2 2 -500
look 5 4 4
push 4 1 5
push 3 5 5
look 3 2 4
submit 5 0 2 250
ship 5 5
take 1 4
commit 3
elect 5
submit 2 13 2 250
commit 3
elect 3
look 1 2 6
commit 2
look 5 4 5
take 5 5
push 4 5 4
take 1 3
commit 2
push 2 2 5
take 4 4
look 4 1 5
ship 3 1
commit 1
look 5 3 5
take 2 2
look 1 4 5
look 5 1 6
take 3 1
win 1
look 5 4 4
commit 3
look 5 4 5
submit 2 16 3 500
push 3 2 6
commit 5
ship 5 3
commit 5
push 4 5 4
submit 1 6 2 -500
push 0 5 6
look 2 3 4
ship 3 5
ship 4 4
commit 3
push 3 2 6
look 1 3 5
look 5 2 6
ship 4 5
win 5
commit 5
elect 5
elect 2
look 3 2 6
commit 2
submit 4 8 3 500
push 1 4 6
take 4 1
look 5 1 6
take 1 5
commit 2
push 5 2 5
look 5 4 5
submit 1 0 3 500
commit 4
push 3 3 6
submit 4 8 2 250
push 2 1 5
show 3
take 2 4
push 5 3 5
ship 1 3
push 1 1 6
push 5 5 5
submit 1 1 3 500
push 5 1 6
look 4 3 6
push 1 1 6
commit 1
take 4 5
submit 5 10 2 -500
submit 1 9 3 500
show 4
push 2 1 5
take 4 2
take 1 3
take 1 4
push 4 2 5
take 1 4
elect 2
look 5 4 4
take 1 3
elect 4
ship 5 1
look 2 3 6
look 2 4 5
submit 0 2 3 500
commit 5
commit 3
commit 4
commit 5
ship 5 2
commit 0
take 1 2
win 1
push 4 1 6
ship 4 2
submit 2 12 2 250
push 1 4 5
timeout 2
look 5 3 6
take 3 3
elect 1
take 2 2
submit 2 5 2 -500
look 5 4 5
submit 4 9 3 500
look 4 1 5
submit 4 5 2 250
push 2 4 5
push 5 2 4
submit 4 8 2 250
look 4 1 6
look 3 1 6
ship 2 3
look 1 4 6
commit 2
commit 1
look 5 2 5
push 1 3 5
submit 5 10 3 500
push 1 5 4
commit 5
push 2 5 4
submit 2 2 2 250
win 1
take 1 3
elect 1
take 5 3
look 5 2 6
take 5 5
elect 5
commit 3
submit 3 16 2 250
commit 1
ship 3 2
look 4 2 5
ship 1 5
commit 4
commit 3
commit 5
look 5 1 5
win 2
timeout 3
ship 1 2
commit 3
ship 2 4
commit 4
timeout 5
push 5 1 5
ship 1 5
take 1 5
ship 5 3
ship 4 4
commit 5
push 1 2 6
push 5 2 6
ship 4 4
take 5 4
submit 3 7 2 -500
push 4 4 4
show 2
timeout 5
ship 2 1
push 2 4 6
look 5 1 4
ship 5 3
elect 1
push 5 5 5
timeout 4
look 5 4 5
take 2 5
commit 4
ship 4 5
push 2 4 4
take 1 4
submit 2 13 3 500
take 2 2
take 5 4
ship 4 1
push 1 5 5
ship 2 1
take 5 5
take 2 2
look 5 4 4
commit 2
win 5
commit 2
push 3 4 4
ship 5 2
submit 1 15 2 250
elect 4
take 3 5
look 5 2 4
push 4 5 4
commit 2
submit 5 15 2 -500
push 1 4 4
push 4 2 6
timeout 1
push 3 1 4
ship 1 4
submit 3 6 3 500
commit 2
win 2
commit 2
take 1 1
look 5 3 5
commit 2
take 5 3
commit 1
commit 1
commit 5
ship 1 1
win 3
push 4 5 6
commit 4
commit 3
commit 1
look 2 4 6
commit 4
look 5 4 5
push 1 3 6
push 5 1 5
take 5 5
look 5 2 6
ship 2 4
",
    prints: "no 5
ok
no 1
no 1
ok
no 5
no 5
no 5
ok
no 5
ok 0
no 6
ok
no 5
no 6
ok
ok
no 6
no 6
ok 0
no 1
ok
ok
no 6
no 6
no 1
ok 0
no 6
ok 0
ok
no 5
ok
no 5
ok
no 5
no 5
no 5
ok
no 1
no 5
no 6
no 5
ok
ok 0
no 5
no 4
card 5: electing, stopped
  epoch 0.0, new epoch 0.0, vote 0.0 with 0.0.0
  accepted 0.0.0, committed 0.0.0, next 0.0.0
  peer 1: nothing shipped; accept 0.0.0, vote 0.0 with 0.0.0, commit 0.0.0
  peer 2: nothing shipped; accept 0.0.0, vote 0.0 with 0.0.0, commit 0.0.0
  peer 3: nothing shipped; accept 0.0.0, vote 0.0 with 0.0.0, commit 0.0.0
  peer 4: nothing shipped; accept 0.0.0, vote 0.0 with 0.0.0, commit 0.0.0
  log: 0 of 16 places
  ledger: every balance is 0
no 6
ok
ok
no 5
no 4
no 4
no 4
no 5
ok
card 5: electing, stopped
  epoch 0.0, new epoch 0.0, vote 0.0 with 0.0.0
  accepted 0.0.0, committed 0.0.0, next 0.0.0
  peer 1: nothing shipped; accept 0.0.0, vote 0.0 with 0.0.0, commit 0.0.0
  peer 2: nothing shipped; accept 0.0.0, vote 0.0 with 0.0.0, commit 0.0.0
  peer 3: nothing shipped; accept 0.0.0, vote 0.0 with 0.0.0, commit 0.0.0
  peer 4: nothing shipped; accept 0.0.0, vote 0.0 with 0.0.0, commit 0.0.0
  log: 0 of 16 places
  ledger: every balance is 0
no 5
no 4
no 4
no 5
ok 0 3
no 6
no 4
no 7
no 5
no 5
ok
no 7
no 1
no 4
no 6
no 1
no 6
ok
ok
ok
no 7
no 5
no 1
no 4
no 5
no 5
no 11
no 5
ok
no 6
no 4
no 5
no 5
no 1
no 4
no 4
no 4
no 5
ok
no 5
ok 0
no 5
no 5
ok
no 1
no 4
no 6
no 1
no 5
no 7
no 1
no 6
no 6
no 6
ok 0 2
no 5
no 4
ok
no 1
no 6
ok 1 2
no 5
no 4
no 5
no 4
no 5
no 5
no 4
no 5
no 4
no 1
no 6
no 5
no 4
no 5
no 5
no 5
no 5
no 4
no 5
ok
ok 0
no 6
ok
no 1
no 1
no 5
ok 0 1
no 6
no 1
no 3
no 1
ok
no 4
no 5
no 4
no 4
no 5
ok
no 4
no 4
no 1
no 6
no 4
no 4
ok
no 7
no 4
no 5
no 1
no 5
no 5
no 5
no 4
no 5
no 4
ok
no 1
ok 0
no 7
ok 0
ok
no 6
no 5
ok
no 4
no 6
no 5
ok
no 5
ok
ok
no 4
ok 0
no 6
no 5
no 3
no 1
ok
no 4
ok 0
no 7
no 4
ok 0
no 7
no 7
no 5
ok
no 4
no 5
no 5
no 5
no 5
no 4
no 5
no 4
no 5
no 6
no 5
no 7
no 5
no 4
no 4
no 5
no 11
no 4
ok
ok 0
no 1
no 7
no 4
no 1
no 5
no 4
no 3
no 5
no 6
ok 0
no 4
no 6
ok 2
no 4
no 7
no 4
ok
no 6
no 7
no 6
no 5
no 4
no 5
no 5
no 5
no 5
no 5
no 4
no 4
no 5
no 5
no 4
no 4
no 4
no 1
no 1
ok 0
no 5
no 4
ok
ok
ok
no 4
no 1
no 6
no 5
no 4
no 5
no 5
ok 0
ok
no 5
no 4
no 1
no 11
no 6
no 5
no 1
no 1
ok
no 5
no 5
no 4
no 1
ok
no 4
no 6
no 7
no 4
no 5
no 4
no 3
ok
no 4
no 4
no 4
no 11
no 5
no 1
no 6
no 5
no 1
no 5
no 11
ok
no 4
no 5
no 4
no 4
no 4
ok 0
ok
no 5
no 5
no 11
no 6
no 4
no 6
no 5
no 4
no 4
no 5
no 5
no 1
no 5
ok
card 3: electing
  epoch 0.0, new epoch 0.3, vote 0.3 with 0.0.0
  accepted 0.0.0, committed 0.0.0, next 0.0.0
  peer 1: nothing shipped; accept 0.0.0, vote 0.0 with 0.0.0, commit 0.0.0
  peer 2: nothing shipped; accept 0.0.0, vote 0.0 with 0.0.0, commit 0.0.0
  peer 4: nothing shipped; accept 0.0.0, vote 0.0 with 0.0.0, commit 0.0.0
  peer 5: nothing shipped; accept 0.0.0, vote 0.0 with 0.0.0, commit 0.0.0
  log: 0 of 16 places
  ledger: every balance is 0
no 6
no 4
no 5
no 1
no 1
no 5
no 4
ok
no 1
no 5
no 6
no 4
no 5
card 4: electing
  epoch 0.0, new epoch 0.0, vote 0.0 with 0.0.0
  accepted 0.0.0, committed 0.0.0, next 0.0.0
  peer 1: nothing shipped; accept 0.0.0, vote 0.1 with 0.0.0, commit 0.0.0
  peer 2: nothing shipped; accept 0.0.0, vote 0.0 with 0.0.0, commit 0.0.0
  peer 3: nothing shipped; accept 0.0.0, vote 0.0 with 0.0.0, commit 0.0.0
  peer 5: nothing shipped; accept 0.0.0, vote 0.0 with 0.0.0, commit 0.0.0
  log: 0 of 16 places
  ledger: every balance is 0
no 11
no 6
no 6
no 6
ok
no 6
ok 0
no 4
no 6
ok 2
no 4
ok
ok
no 1
no 4
no 5
no 5
no 4
no 4
no 1
no 6
no 7
ok
no 5
no 5
ok
ok 2 2
no 4
no 1
ok 0
no 1
no 5
no 4
no 5
ok
no 5
ok
no 4
no 5
ok
ok
no 5
ok
no 5
no 5
no 4
ok
no 4
ok
no 4
ok
no 5
no 7
no 6
ok 0
no 4
no 4
no 1
no 4
no 5
no 3
no 5
no 5
ok
no 5
no 5
no 5
no 4
no 4
no 7
ok 1 3
no 5
no 5
no 5
no 5
no 4
no 4
no 5
no 6
no 4
no 1
no 4
ok
no 4
no 1
no 4
no 5
no 1
card 2: electing
  epoch 0.0, new epoch 2.2, vote 2.2 with 0.0.0
  accepted 0.0.0, committed 0.0.0, next 0.0.0
  peer 1: nothing shipped; accept 0.0.0, vote 0.0 with 0.0.0, commit 0.0.0
  peer 3: nothing shipped; accept 0.0.0, vote 0.0 with 0.0.0, commit 0.0.0
  peer 4: nothing shipped; accept 0.0.0, vote 0.0 with 0.0.0, commit 0.0.0
  peer 5: nothing shipped; accept 0.0.0, vote 0.0 with 0.0.0, commit 0.0.0
  log: 0 of 16 places
  ledger: every balance is 0
no 4
no 5
ok
no 4
no 4
ok 0
no 1
ok 2 4
no 4
no 6
no 5
no 5
ok
no 6
no 5
no 1
no 4
no 5
no 11
no 5
no 1
no 1
no 4
no 5
no 4
no 5
no 11
no 4
no 5
ok 0
no 6
no 4
no 11
no 5
no 4
ok
ok
ok 2 1
ok
no 5
no 5
no 5
no 7
no 5
no 1
no 4
no 5
no 4
no 5
no 5
no 4
no 1
no 7
ok
no 5
no 5
no 5
ok
no 5
no 4
ok
no 4
no 1
no 4
no 5
card 1
card 2
card 3
card 4
card 5
",
};
